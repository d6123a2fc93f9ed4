// The lines that commands print.
ghost use Rattle.std.specs.Prelude.{◌≡◌, Some, IfOk, IfSome, string_bytes};
ghost use Rattle.commands.specs.Lines.{range_text, sheet_text, accepted_text, answer_text};

use fault::faults::Fault;
use points::summaries::{Range, Summary};
use sheets::kinds::Kind;
use std::alloc::{AllocError, Global};
use std::fmt;

// The range of a sheet's points, where it allows any pair.
#[derive(Clone, Copy)]
pub(crate) struct RangePart(Option<Range>);

impl fmt::Display for RangePart {
    ghost output = { λ p. Some (range_text p.0) };

    fn fmt<W: fmt::Write>(&self, f: &mut fmt::Formatter<W>) -> fmt::Result {
        match self.0 {
            None => Ok(()),
            Some(range) => write!(f, " least {} greatest {}", range.least, range.greatest),
        }
    }
}

// What a sheet comes to.
#[derive(Clone, Copy, PartialEq, Eq, Debug)]
pub struct SheetLine {
    pub kind: Kind,
    pub runs: usize,
    pub summary: Summary,
}

impl fmt::Display for SheetLine {
    ghost output = { λ l. Some (sheet_text l) };

    fn fmt<W: fmt::Write>(&self, f: &mut fmt::Formatter<W>) -> fmt::Result {
        let range = RangePart(self.summary.range);
        write!(
            f,
            "kind {} runs {} allowed {}{range}",
            self.kind, self.runs, self.summary.allowed
        )
    }
}

// An accepted certificate, by its plan's total.
#[derive(Clone, Copy, PartialEq, Eq, Debug)]
pub struct AcceptedLine {
    pub total: i64,
}

impl fmt::Display for AcceptedLine {
    ghost output = { λ l. Some (accepted_text l.total) };

    fn fmt<W: fmt::Write>(&self, f: &mut fmt::Formatter<W>) -> fmt::Result {
        write!(f, "accepted total {}", self.total)
    }
}

// The text of a line, or of the refusal in its place.
pub fn text_of<L: fmt::Display + Drop>(
    heap: Global,
    answer: Result<L, Fault>,
) -> Result<String, AllocError>
    ensures { IfOk result (λ s. IfSome (answer_text L.output answer) (λ bs. string_bytes s ≡ bs)) }
{
    match answer {
        Ok(line) => line.to_string(heap),
        Err(fault) => fault.to_string(heap),
    }
}
