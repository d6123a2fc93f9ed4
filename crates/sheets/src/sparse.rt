// Sparse sheets: spans of seats for every run, and the points of the covered seats.
ghost use Rattle.std.specs.Prelude.{◌≡◌, ◌+◌, ◌-◌, ◌*◌, ◌<◌, ◌≤◌, max, true, length, refl};
ghost use Rattle.fault.specs.Checks.{Passes, kept};
ghost use Rattle.points.specs.Tables.{Next};
ghost use Rattle.points.specs.Limits.{size_limit};
ghost use Rattle.sheets.specs.Headers.{size_in, spans_in, in_range};
ghost use Rattle.sheets.specs.Sparse.{span_limit, points_at, sparse_checks, point_word, sparse_table};
ghost use Rattle.sheets.specs.Seeks.{First, point_by};
ghost use Rattle.sheets.specs.Ranges.{sparse_lawful};

use crate::checks::{Words, in_range};
use crate::fields::Field;
use crate::frames::Frame;
use crate::rules::check_sparse;
use crate::sheet::{Layout, Sheet};
use crate::spans::{Span, seek};
use fault::faults::Fault;

// The layout of sparse sheets.
pub struct Sparse;

pub type SparseSheet = Sheet<Sparse>;

// The bytes of a sparse sheet that keep every rule.
#[derive(Clone, Copy)]
pub(crate) struct SparseBytes<'a> {
    frame: Frame<'a>,
    ghost keeps: { kept (sparse_checks frame.bytes.now) ≡ true },
}

impl<'a> SparseBytes<'a> {
    // Bytes that have passed the checks, and their size.
    pub(crate) fn new(bytes: &'a [u8], size: usize) -> Self
        requires size { size ≡ size_in bytes.now }
        requires passes { Passes (sparse_checks bytes.now) }
        ensures { result.frame.bytes.now ≡ bytes.now }
    {
        let spans = u32::at(bytes, 4) as usize;
        SparseBytes {
            frame: Frame { bytes, size, spans },
        }
    }

    // The first span of a run's row that ends over a seat, or nothing where none does.
    pub(crate) fn first_over(&self, run: usize, seat: usize) -> Option<Span>
        requires { run < self.now.frame.size }
        ensures { First self.now.frame.bytes.now run seat result }
    {
        let spans = self.frame.row_spans(run);
        let passed = seek(spans, seat);
        spans.get(passed).map(|span| Span::read(span))
    }

    // The points that a span has for a seat below its end, or nothing where it begins after the seat.
    pub(crate) fn point_of(&self, span: Span, seat: usize) -> Option<i32>
        requires { span.from ≤ seat → points_at self.now.frame.bytes.now + 4 * (span.first + (seat - span.from)) + 4 ≤ length self.now.frame.bytes.now }
        ensures { result ≡ point_by self.now.frame.bytes.now span seat }
    {
        let past = seat.checked_sub(usize::from(span.from))?;
        let point = span.first as usize + past;
        Some(u32::at(self.frame.bytes, self.frame.points_at() + 4 * point).cast_signed())
    }

    // The points of a run on a seat, or nothing where no span of the run covers the seat.
    pub(crate) fn points(&self, run: usize, seat: usize) -> Option<i32>
        requires { run < self.now.frame.size }
        ensures { result ≡ (sparse_table self.now.frame.bytes.now).points run seat }
    {
        let span = self.first_over(run, seat)?;
        self.point_of(span, seat)
    }

    // The lowest covered seat of a run that is at least `from`, or nothing where there is none.
    pub(crate) fn next(&self, run: usize, from: usize) -> Option<usize>
        requires { run < self.now.frame.size }
        ensures { Next (sparse_table self.now.frame.bytes.now) run from result }
    {
        let span = self.first_over(run, from)?;
        Some(reached(span, from))
    }
}

// The first seat that a span covers from a seat below its end on.
pub(crate) fn reached(span: Span, seat: usize) -> usize
    ensures { result ≡ max seat span.from }
{
    seat.max(usize::from(span.from))
}

impl Words for Sparse {
    ghost takes = { in_range };

    fn takes(word: u32) -> bool {
        in_range(word)
    }
}

impl Layout for Sparse {
    ghost checks = { sparse_checks };

    ghost table = { sparse_table };

    ghost sized = { λ bs. refl };

    ghost topped = { λ bs. refl };

    ghost lawful = { sparse_lawful };

    fn check(bytes: &[u8]) -> Result<usize, Fault> {
        check_sparse(bytes)
    }

    fn points(bytes: &[u8], size: usize, run: usize, seat: usize) -> Option<i32> {
        SparseBytes::new(bytes, size).points(run, seat)
    }

    fn next(bytes: &[u8], size: usize, run: usize, from: usize) -> Option<usize> {
        SparseBytes::new(bytes, size).next(run, from)
    }
}
