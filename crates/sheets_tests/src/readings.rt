// A plain reading of both kinds of sheet, for tests alone: the first fault of the bytes, if any.
ghost use Rattle.std.specs.Prelude.{◌≡◌, ◌+◌, ◌*◌, ◌<◌};

use fault::causes::Cause;
use fault::faults::Fault;
use fault::layers::Layer;

// The codes of the kinds and the word of no pair, in numbers of its own: the reading shares nothing with what it tests.
const DENSE: u16 = 0;

const SPARSE: u16 = 1;

const ABSENT: u32 = 0x8000_0000;

// The first fault of a dense sheet.
pub fn dense_fault(bytes: &[u8]) -> Option<Fault> {
    Reading(bytes).read_dense().err()
}

// The first fault of a sparse sheet.
pub fn sparse_fault(bytes: &[u8]) -> Option<Fault> {
    Reading(bytes).read_sparse().err()
}

// Fails with a fault at a byte unless a test comes out true.
fn must(test: bool, cause: Cause, at: usize) -> Result<(), Fault> {
    Fault::at_byte(Layer::Sheet, cause, at).unless(test)
}

// Whether a word is points from -1,000,000 to 1,000,000.
fn is_points(word: u32) -> bool {
    word <= 1_000_000 || word >= 4_293_967_296
}

// A sheet's bytes, read as if there were zeros past their end.
#[derive(Clone, Copy)]
struct Reading<'a>(&'a [u8]);

impl Reading<'_> {
    fn byte(self, at: usize) -> u8 {
        self.0.get(at).copied().unwrap_or(0)
    }

    // A field of two bytes.
    fn half(self, at: usize) -> u16 {
        u16::from_le_bytes([0, 1].map(|k| self.byte(at.wrapping_add(k))))
    }

    // A field of four bytes.
    fn word(self, at: usize) -> u32 {
        u32::from_le_bytes([0, 1, 2, 3].map(|k| self.byte(at.wrapping_add(k))))
    }

    // The header, for a kind of sheet; answers the size.
    fn read_header(self, kind: u16) -> Result<u16, Fault> {
        let size = self.half(0);
        must(self.0.len() >= 8, Cause::Length, self.0.len())?;
        must(self.half(2) == kind, Cause::Kind, 2)?;
        must(1 <= size && size <= 256, Cause::Size, 0)?;
        Ok(size)
    }

    // The exact length.
    fn read_length(self, length: usize) -> Result<(), Fault> {
        must(self.0.len() == length, Cause::Length, self.0.len())
    }

    // The words from a byte on, up to the end: each is one that is taken.
    fn read_points<F: Fn(u32) -> bool>(self, from: usize, is_taken: F) -> Result<(), Fault>
        requires { F.IsAlwaysCallable is_taken }
    {
        (from..self.0.len())
            .step_by(4)
            .try_for_each(|at| must(is_taken(self.word(at)), Cause::Points, at))
    }

    fn read_dense(self) -> Result<(), Fault> {
        let size = usize::from(self.read_header(DENSE)?);
        must(self.word(4) == 0, Cause::Spans, 4)?;
        self.read_length(8 + 4 * size * size)?;
        self.read_points(8, |word| is_points(word) || word == ABSENT)
    }

    fn read_sparse(self) -> Result<(), Fault> {
        let size = self.read_header(SPARSE)?;
        let spans = self.word(4);
        must(spans <= 65_536, Cause::Spans, 4)?;
        let start = span_at(size, spans);
        must(self.0.len() >= start, Cause::Length, self.0.len())?;
        self.read_rows(size, spans)?;
        let covered = self.read_spans(size, spans)?;
        self.read_length(covered.wrapping_mul(4).wrapping_add(start))?;
        self.read_points(start, is_points)
    }

    // The rows, by number since their places come from it: each starts with the span after the row before, and the
    // last ends with the last span.
    fn read_rows(self, size: u16, spans: u32) -> Result<(), Fault> {
        let spans = u64::from(spans);
        let mut end = 0;
        for row in 0..size {
            let at = row_at(row);
            let from = u64::from(self.word(at));
            must(from == end, Cause::Spans, at)?;
            end = from + u64::from(self.word(at + 4));
            let is_last = row + 1 == size;
            must(
                end <= spans && (end == spans || !is_last),
                Cause::Spans,
                at + 4,
            )?;
        }
        Ok(())
    }

    // Whether a row that has spans starts with a span.
    fn starts_row(self, size: u16, span: u32) -> bool {
        (0..size)
            .map(row_at)
            .any(|at| self.word(at) == span && self.word(at + 4) != 0)
    }

    // The spans, by number since their places come from it; answers how many points they have.
    fn read_spans(self, size: u16, spans: u32) -> Result<usize, Fault> {
        let mut before = 0;
        let mut covered = 0;
        for span in 0..spans {
            if self.starts_row(size, span) {
                before = 0;
            }
            let at = span_at(size, span);
            self.read_span(size, span, before, covered)?;
            let length = usize::from(self.half(at + 2));
            before = usize::from(self.half(at)) + length;
            covered = covered.wrapping_add(length);
        }
        Ok(covered)
    }

    // A span after one of its row that ends at `before`, with `covered` points before it.
    fn read_span(self, size: u16, span: u32, before: usize, covered: usize) -> Result<(), Fault> {
        let at = span_at(size, span);
        let from = usize::from(self.half(at));
        let length = usize::from(self.half(at + 2));
        must(from >= before, Cause::Spans, at)?;
        must(
            length >= 1 && from + length <= usize::from(size),
            Cause::Spans,
            at + 2,
        )?;
        must(self.word(at + 4) as usize == covered, Cause::Spans, at + 4)
    }
}

// The first byte of a row.
fn row_at(row: u16) -> usize
    ensures { result ≡ 8 + 8 * row }
{
    8 + 8 * usize::from(row)
}

// The first byte of a span, or of the points after the last.
fn span_at(size: u16, span: u32) -> usize
    ensures { result ≡ 8 + 8 * size + 8 * span }
{
    row_at(size) + 8 * (span as usize)
}
