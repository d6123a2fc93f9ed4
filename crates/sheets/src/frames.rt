// The frame of a sparse sheet: its bytes, with room for their rows and spans.
ghost use Rattle.std.specs.Prelude.{◌≡◌, ◌+◌, ◌<◌, ◌≤◌, length};
ghost use Rattle.points.specs.Limits.{size_limit};
ghost use Rattle.sheets.specs.Headers.{size_in, spans_in};
ghost use Rattle.sheets.specs.Sparse.{span_limit, row_from, row_len, span_at, span_from, span_len, span_first, row_end, points_at};
ghost use Rattle.sheets.specs.Seeks.{SpansAt};

use crate::fields::Field;
use crate::spans::{Row, Span, span_at};

// The bytes of a sparse sheet, and how many runs and how many spans it has.
// That a run is below the size is asked of each call: a fact about its argument, which no field can hold.
#[derive(Clone, Copy)]
pub(crate) struct Frame<'a> {
    pub bytes: &'a [u8],
    pub size: usize,
    pub spans: usize,
    ghost sized: { (size ≡ size_in bytes.now) × (1 ≤ size) × (size ≤ size_limit) },
    ghost counted: { (spans ≡ spans_in bytes.now) × (spans ≤ span_limit) },
    ghost room: { points_at bytes.now ≤ length bytes.now },
}

impl<'a> Frame<'a> {
    // The row of a run.
    #[tactic(auto, unfolding(crate::specs::Sparse::row_from, crate::specs::Sparse::row_len))]
    pub(crate) fn row(&self, run: usize) -> Row
        requires { run < self.now.size }
        ensures { let bs = self.now.bytes.now in (result.from ≡ row_from bs run) × (result.len ≡ row_len bs run) }
    {
        let from = u32::at(self.bytes, 8 + 8 * run);
        let len = u32::at(self.bytes, 12 + 8 * run);
        Row { from, len }
    }

    // The span of a number.
    // (each field is read where it stands: cut out of the bytes first, they are read as one number and shifted apart, and each
    // span takes 23 instructions to check in place of 18)
    #[tactic(auto, unfolding(crate::specs::Sparse::span_from, crate::specs::Sparse::span_len, crate::specs::Sparse::span_first))]
    pub(crate) fn span(&self, span: usize) -> Span
        requires { span < self.now.spans }
        ensures { let bs = self.now.bytes.now in (result.from ≡ span_from bs span) × (result.len ≡ span_len bs span) × (result.first ≡ span_first bs span) }
    {
        let at = span_at(self.size, span);
        let from = u16::at(self.bytes, at);
        let len = u16::at(self.bytes, at + 2);
        let first = u32::at(self.bytes, at + 4);
        Span { from, len, first }
    }

    // The first byte of the points.
    pub(crate) fn points_at(&self) -> usize
        ensures { result ≡ points_at self.now.bytes.now }
    {
        span_at(self.size, self.spans)
    }

    // The spans of a run's row, in order, as they stand in the bytes.
    pub(crate) fn row_spans(&self, run: usize) -> &'a [[u8; 8]]
        requires run { run < self.now.size }
        requires row { row_end self.now.bytes.now run ≤ self.now.spans }
        ensures { let bs = self.now.bytes.now in SpansAt bs (row_from bs run) (row_len bs run) result.now }
    {
        let row = self.row(run);
        let from = span_at(self.size, row.from as usize);
        let end = span_at(self.size, row.end());
        self.bytes[from..end].as_chunks().0
    }
}
