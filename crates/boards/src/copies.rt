// A site's copy of the told prices, which may lie behind them at some seats.
ghost use Rattle.std.specs.Prelude.{◌≡◌, ℕ, ◌+◌, ◌<◌, ◌≤◌, ◌≢◌};
ghost use Rattle.boards.specs.Limits.{seat_limit, site_count};
ghost use Rattle.boards.specs.Rows.{at};
ghost use Rattle.boards.specs.Copies.{copy_at, Marked, Covers, Misses, BroughtUp, Blank};

use crate::rows::{PriceRow, SEAT_LIMIT};
use crate::spans::Span;

// How many sites there are, each with a copy.
pub const SITES: usize = 8;

// A copy may lie behind at the seats of a span, of which there may be none, and at no others.
#[derive(Clone, Copy)]
pub struct SiteCopy {
    pub row: PriceRow,
    pub behind: Span,
}

impl SiteCopy {
    // A copy of zeros that lies behind nowhere.
    pub(crate) fn new() -> Self
        ensures { Blank result }
    {
        SiteCopy {
            row: PriceRow::new(),
            behind: Span::NONE,
        }
    }

    // Notes that a price was told at a seat.
    fn mark(&mut self, seat: usize)
        requires { seat < seat_limit }
        ensures { Marked seat self.old self.new }
    {
        // no `Option` of a span: with its test at each copy a telling takes up to twice as long
        self.behind = Span {
            from: self.behind.from.min(seat),
            to: self.behind.to.max(seat + 1),
        };
    }

    // Copies the told prices wherever this copy may lie behind.
    fn bring_up(&mut self, told: &PriceRow)
        ensures { BroughtUp told.now self.old self.new }
    {
        // not `from < to`: with it a settle with nothing told since takes 7 ns, and with this test 4
        if self.behind.from != SEAT_LIMIT {
            copy_span(&mut self.row, told, self.behind);
            self.behind = Span::NONE;
        }
    }
}

// Notes at every site that a price was told at a seat.
// (This and `bring_all_up` are two loops of one line: one function for both would take the line as a closure.)
pub(crate) fn mark_all(copies: &mut [SiteCopy; SITES], seat: usize)
    requires { seat < seat_limit }
    ensures { (c : ℕ) → c < site_count → Marked seat (copy_at copies.old c) (copy_at copies.new c) }
{
    for copy in copies {
        copy.mark(seat);
    }
}

// Copies the told prices wherever the copy of one site may lie behind.
pub(crate) fn bring_one_up(copies: &mut [SiteCopy; SITES], told: &PriceRow, site: usize)
    requires { site < site_count }
    ensures here { BroughtUp told.now (copy_at copies.old site) (copy_at copies.new site) }
    ensures elsewhere { (c : ℕ) → c ≢ site → copy_at copies.new c ≡ copy_at copies.old c }
{
    copies[site].bring_up(told);
}

// Copies the told prices wherever a site's copy may lie behind.
pub(crate) fn bring_all_up(copies: &mut [SiteCopy; SITES], told: &PriceRow)
    ensures { (c : ℕ) → c < site_count → BroughtUp told.now (copy_at copies.old c) (copy_at copies.new c) }
{
    for copy in copies {
        copy.bring_up(told);
    }
}

// Copies the told prices at the seats of a span.
fn copy_span(row: &mut PriceRow, told: &PriceRow, span: Span)
    ensures up { (k : ℕ) → Covers span k → at row.new k ≡ at told.now k }
    ensures kept { (k : ℕ) → Misses span k → at row.new k ≡ at row.old k }
{
    // not `copy_from_slice`: with it a telling and a settle take 44 ns, and with this loop 22 ns; most spans are of one seat
    for k in span.from..span.to {
        row.prices[k] = told.prices[k];
    }
}
