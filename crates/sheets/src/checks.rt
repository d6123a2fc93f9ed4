// Checks that every kind of sheet shares: the header, and words of points.
ghost use Rattle.std.specs.Prelude.{◌≡◌, ℕ, ◌+◌, ◌*◌, ◌<◌, ◌≤◌, Bool, length, MatchResult};
ghost use Rattle.fault.specs.Checks.{Passes, Refuses};
ghost use Rattle.sheets.specs.Codes.{code};
ghost use Rattle.sheets.specs.Headers.{size_in, spans_in, sheet_fault, header_checks, in_range, word_checks};

use crate::fields::{Field, Header, read_header, sheet_fault};
use crate::kinds::Kind;
use fault::causes::Cause;
use fault::faults::Fault;
use points::limits::SIZE_LIMIT;

// The points of a sheet lie from -SHEET_TOP to SHEET_TOP.
pub const SHEET_TOP: i32 = 1_000_000;

// The word that marks a pair that is not allowed: the bits of the least i32.
pub(crate) const ABSENT: u32 = 0x8000_0000;

// The header of a sheet of a kind, with a size from 1 to the limit.
pub(crate) fn check_header(bytes: &[u8], kind: Kind) -> Result<Header, Fault>
    ensures { MatchResult result
        (λ h. Passes (header_checks (code kind) bytes.now) × (h.size ≡ size_in bytes.now) × (h.spans ≡ spans_in bytes.now))
        (λ f. Refuses (header_checks (code kind) bytes.now) f) }
{
    let header = read_header(bytes)?;
    sheet_fault(Cause::Kind, 2).unless(header.kind == u16::from(kind))?;
    sheet_fault(Cause::Size, 0).unless((1..=SIZE_LIMIT).contains(&usize::from(header.size)))?;
    Ok(header)
}

// Whether a word is points in range.
pub(crate) fn in_range(word: u32) -> bool
    ensures { result ≡ in_range word }
{
    (-SHEET_TOP..=SHEET_TOP).contains(&word.cast_signed())
}

// Which words may stand among the points of a kind of sheet: a trait and no closure, so that clauses can name it.
pub(crate) trait Words {
    ghost takes: { ℕ → Bool };

    fn takes(word: u32) -> bool
        ensures { result ≡ takes word };
}

// Words of points one after the other, from a byte on.
pub(crate) fn check_words<K: Words>(bytes: &[u8], from: usize, count: usize) -> Result<(), Fault>
    requires { from + 4 * count ≤ length bytes.now }
    ensures { MatchResult result (λ _. Passes (word_checks K.takes bytes.now from count)) (λ f. Refuses (word_checks K.takes bytes.now from count) f) }
{
    let refused = (0..count).find(|&k| !K::takes(u32::at(bytes, from + 4 * k)));
    match refused {
        None => Ok(()),
        Some(k) => Err(sheet_fault(Cause::Points, from + 4 * k)),
    }
}
