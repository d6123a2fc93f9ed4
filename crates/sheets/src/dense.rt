// Dense sheets: the points of every run on every seat.
ghost use Rattle.std.specs.Prelude.{◌≡◌, ◌+◌, ◌*◌, ◌<◌, ◌≤◌, length, MatchResult, refl};
ghost use Rattle.fault.specs.Checks.{Passes, Refuses};
ghost use Rattle.points.specs.Limits.{size_limit};
ghost use Rattle.sheets.specs.Headers.{size_in};
ghost use Rattle.sheets.specs.Dense.{row_at, is_cell, cell, dense_frame, dense_cells, dense_checks, dense_table};
ghost use Rattle.sheets.specs.Cells.{dense_lawful};

use crate::checks::{ABSENT, Words, check_header, check_words, in_range};
use crate::fields::{Field, sheet_fault};
use crate::kinds::Kind;
use crate::sheet::{Layout, Sheet};
use fault::causes::Cause;
use fault::faults::Fault;

// The kind of a dense sheet, as its header has it.
pub const DENSE_KIND: u16 = Kind::Dense as u16;

// The layout of dense sheets.
pub struct Dense;

pub type DenseSheet = Sheet<Dense>;

impl Layout for Dense {
    ghost checks = { dense_checks };

    ghost table = { dense_table };

    ghost sized = { λ bs. refl };

    ghost topped = { λ bs. refl };

    ghost lawful = { dense_lawful };

    fn check(bytes: &[u8]) -> Result<usize, Fault> {
        let size = check_frame(bytes)?;
        check_words::<Dense>(bytes, row_at(size, 0), size * size)?;
        Ok(size)
    }

    fn points(bytes: &[u8], size: usize, run: usize, seat: usize) -> Option<i32> {
        if seat >= size {
            return None;
        }
        cell_of(u32::at(bytes, row_at(size, run) + 4 * seat))
    }

    fn next(bytes: &[u8], size: usize, run: usize, from: usize) -> Option<usize> {
        // not `find`: with it a check of a certificate over 256 runs takes 170 us, and with this loop 125 us
        for seat in from..size {
            if Dense::points(bytes, size, run, seat).is_some() {
                return Some(seat);
            }
        }
        None
    }
}

impl Words for Dense {
    ghost takes = { is_cell };

    fn takes(word: u32) -> bool {
        word == ABSENT || in_range(word)
    }
}

// The first byte of the points of a run.
pub(crate) fn row_at(size: usize, run: usize) -> usize
    requires { (size ≤ size_limit) × (run < size_limit) }
    ensures { result ≡ row_at size run }
{
    8 + 4 * (size * run)
}

// The header, no spans, and the exact length; answers the size.
pub(crate) fn check_frame(bytes: &[u8]) -> Result<usize, Fault>
    ensures { MatchResult result
        (λ n. Passes (dense_frame bytes.now) × (n ≡ size_in bytes.now))
        (λ f. Refuses (dense_frame bytes.now) f) }
{
    let header = check_header(bytes, Kind::Dense)?;
    sheet_fault(Cause::Spans, 4).unless(header.spans == 0)?;
    let size = usize::from(header.size);
    sheet_fault(Cause::Length, bytes.len()).unless(bytes.len() == 8 + 4 * (size * size))?;
    Ok(size)
}

// What a word says of its pair.
pub(crate) fn cell_of(word: u32) -> Option<i32>
    ensures { result ≡ cell word }
{
    if word == ABSENT {
        None
    } else {
        Some(word.cast_signed())
    }
}
