// The rules of a sparse sheet, in the order in which they are checked.
ghost use Rattle.std.specs.Prelude.{◌≡◌, ◌+◌, ◌*◌, ◌<◌, ◌≤◌, length, MatchResult};
ghost use Rattle.fault.specs.Checks.{Passes, Refuses};
ghost use Rattle.points.specs.Limits.{size_limit};
ghost use Rattle.sheets.specs.Headers.{size_in, spans_in};
ghost use Rattle.sheets.specs.Sparse.{span_limit, row_from, row_end, span_at, span_from, span_len, covered_before, sparse_frame, ends_well, row_checks, sparse_rows, span_checks, row_spans, sparse_spans, point_checks, sparse_checks};

use crate::checks::{check_header, check_words};
use crate::fields::sheet_fault;
use crate::frames::Frame;
use crate::kinds::Kind;
use crate::spans::{Span, span_at};
use crate::sparse::Sparse;
use fault::causes::Cause;
use fault::faults::Fault;

// The kind of a sparse sheet, as its header has it.
pub const SPARSE_KIND: u16 = Kind::Sparse as u16;

// No sheet has more spans than this.
pub const SPAN_LIMIT: u32 = 65_536;

// The header, a span count within the limit, and room for the rows and the spans.
pub(crate) fn check_frame(bytes: &[u8]) -> Result<Frame<'_>, Fault>
    ensures { MatchResult result
        (λ frame. Passes (sparse_frame bytes.now) × (frame.bytes.now ≡ bytes.now))
        (λ f. Refuses (sparse_frame bytes.now) f) }
{
    let header = check_header(bytes, Kind::Sparse)?;
    sheet_fault(Cause::Spans, 4).unless(header.spans <= SPAN_LIMIT)?;
    let size = usize::from(header.size);
    let spans = header.spans as usize;
    sheet_fault(Cause::Length, bytes.len()).unless(span_at(size, spans) <= bytes.len())?;
    Ok(Frame { bytes, size, spans })
}

impl Frame<'_> {
    // Whether a row may end there: the last row at the span count, and any other at most there.
    pub(crate) fn ends_well(&self, run: usize, end: usize) -> bool
        requires { run < self.now.size }
        ensures { result ≡ ends_well self.now.size run end self.now.spans }
    {
        if run + 1 == self.size {
            end == self.spans
        } else {
            end <= self.spans
        }
    }

    // The row of a run, after a row that ended at `before`; answers its end.
    pub(crate) fn check_row(&self, run: usize, before: usize) -> Result<usize, Fault>
        requires { run < self.now.size }
        ensures { MatchResult result
            (λ e. Passes (row_checks self.now.bytes.now run before) × (e ≡ row_end self.now.bytes.now run))
            (λ f. Refuses (row_checks self.now.bytes.now run before) f) }
    {
        let row = self.row(run);
        sheet_fault(Cause::Spans, 8 + 8 * run).unless(row.from as usize == before)?;
        sheet_fault(Cause::Spans, 12 + 8 * run).unless(self.ends_well(run, row.end()))?;
        Ok(row.end())
    }

    // The rows, in order.
    pub(crate) fn check_rows(&self) -> Result<(), Fault>
        ensures { MatchResult result (λ _. Passes (sparse_rows self.now.bytes.now)) (λ f. Refuses (sparse_rows self.now.bytes.now) f) }
    {
        // a `for`: `try_fold` saves no line here, and asks for a second induction, over its turns
        let mut end = 0;
        for run in 0..self.size {
            end = self.check_row(run, end)?;
        }
        Ok(())
    }

    // One span, after one that ended at `before` and with `covered` points before it.
    pub(crate) fn check_span(
        &self,
        span: usize,
        before: usize,
        covered: usize,
    ) -> Result<Span, Fault>
        requires { span < self.now.spans }
        ensures { MatchResult result
            (λ s. let bs = self.now.bytes.now in Passes (span_checks bs span before covered) × (s.from ≡ span_from bs span) × (s.len ≡ span_len bs span))
            (λ f. Refuses (span_checks self.now.bytes.now span before covered) f) }
    {
        let at = span_at(self.size, span);
        let found = self.span(span);
        sheet_fault(Cause::Spans, at).unless(before <= usize::from(found.from))?;
        sheet_fault(Cause::Spans, at + 2).unless(1 <= found.len && found.end() <= self.size)?;
        sheet_fault(Cause::Spans, at + 4).unless(found.first as usize == covered)?;
        Ok(found)
    }

    // The spans of a run's row, with `covered` points before them; answers how many points there are up to their end.
    pub(crate) fn check_row_spans(&self, run: usize, covered: usize) -> Result<usize, Fault>
        requires run { run < self.now.size }
        requires row { row_end self.now.bytes.now run ≤ self.now.spans }
        requires covered { (covered ≡ covered_before self.now.bytes.now (row_from self.now.bytes.now run)) × (covered ≤ size_limit * row_from self.now.bytes.now run) }
        ensures { MatchResult result
            (λ c. let bs = self.now.bytes.now in Passes (row_spans bs run) × (c ≡ covered_before bs (row_end bs run)) × (c ≤ size_limit * row_end bs run))
            (λ f. Refuses (row_spans self.now.bytes.now run) f) }
    {
        let row = self.row(run);
        let first = row.from as usize;
        // a `for`: `try_fold` asks, before the first turn, what the turns before each one come to
        let mut end = 0;
        let mut covered = covered;
        for place in 0..row.len as usize {
            let span = self.check_span(first + place, end, covered)?;
            end = span.end();
            covered += usize::from(span.len);
        }
        Ok(covered)
    }

    // The spans of every row, in order; answers how many points there are.
    pub(crate) fn check_spans(&self) -> Result<usize, Fault>
        requires { Passes (sparse_rows self.now.bytes.now) }
        ensures { MatchResult result
            (λ c. let bs = self.now.bytes.now in Passes (sparse_spans bs) × (c ≡ covered_before bs (spans_in bs)) × (c ≤ 16777216))
            (λ f. Refuses (sparse_spans self.now.bytes.now) f) }
    {
        // a `for`, for the same reason
        let mut covered = 0;
        for run in 0..self.size {
            covered = self.check_row_spans(run, covered)?;
        }
        Ok(covered)
    }
}

// Points to the end of the bytes, as many as there should be, each in range.
pub(crate) fn check_points(bytes: &[u8], from: usize, count: usize) -> Result<(), Fault>
    requires { (from ≤ 1000000) × (count ≤ 16777216) }
    ensures { MatchResult result (λ _. Passes (point_checks bytes.now from count)) (λ f. Refuses (point_checks bytes.now from count) f) }
{
    sheet_fault(Cause::Length, bytes.len()).unless(bytes.len() == from + 4 * count)?;
    check_words::<Sparse>(bytes, from, count)
}

// Every rule of a sparse sheet, in order; answers the size.
pub(crate) fn check_sparse(bytes: &[u8]) -> Result<usize, Fault>
    ensures { MatchResult result
        (λ n. Passes (sparse_checks bytes.now) × (n ≡ size_in bytes.now))
        (λ f. Refuses (sparse_checks bytes.now) f) }
{
    let frame = check_frame(bytes)?;
    frame.check_rows()?;
    let covered = frame.check_spans()?;
    check_points(bytes, frame.points_at(), covered)?;
    Ok(frame.size)
}
