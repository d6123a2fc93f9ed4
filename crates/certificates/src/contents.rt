// Checks that every run is content with its seat.
ghost use Rattle.std.specs.Prelude.{◌≡◌, ℕ, ◌<◌, length, pos, ◌+ℤ◌, Some, MatchResult, int_le};
ghost use Rattle.fault.specs.Checks.{Passes, Refuses, each};
ghost use Rattle.fault.specs.declared.causes.Cause.TheVariants.{NotContent};
ghost use Rattle.points.specs.Nets.{net};
ghost use Rattle.points.specs.Plans.{value};
ghost use Rattle.certificates.specs.Certificates.{seat_in, price_in, checker_fault, nets_at_most, price_checks, seat_checks, held_net, content_checks};

use crate::prices::checker_fault;
use fault::causes::Cause;
use fault::faults::Fault;
use points::nets::scaled_points;
use points::sources::{PairSource, RowSource};

// The fault that a run is not content with its seat, since this one nets more.
pub(crate) fn not_content(run: usize, seat: usize) -> Fault
    ensures { result ≡ checker_fault NotContent (Some run) (Some seat) }
{
    checker_fault(Cause::NotContent, Some(run), Some(seat))
}

// A source with a price for each of its seats, none over the limit.
// That a seat has a price is asked of each call: a fact about its argument, which no field can hold.
#[derive(Drop)]
pub(crate) struct Priced<'a, S: RowSource> {
    pub(crate) source: &'a S,
    pub(crate) size: u16,
    pub(crate) prices: &'a [u64],
    pub ghost sized: { size ≡ (S.PairSource.table source.now).size },
    pub ghost priced: { size ≡ length prices.now },
    pub ghost cheap: { Passes (price_checks size prices.now) },
}

impl<'a, S: RowSource> Priced<'a, S> {
    // The net of a seat with these points.
    pub(crate) fn net(&self, points: i32, seat: usize) -> i64
        requires { seat < length self.now.prices.now }
        ensures { result ≡ net (S.PairSource.table self.now.source.now).size points (price_in self.now.prices.now seat) }
    {
        // not `net_points`: with each price limited anew, a check of 256 runs takes 138 us in place of 120
        scaled_points(self.size, points) - self.prices[seat] as i64
    }

    // Whether a seat with these points nets a run at most 1 more than its own.
    pub(crate) fn is_content(&self, held: i64, points: i32, seat: usize) -> bool
        requires { seat < length self.now.prices.now }
        ensures { result ≡ int_le (net (S.PairSource.table self.now.source.now).size points (price_in self.now.prices.now seat)) (held +ℤ pos 1) }
    {
        self.net(points, seat) <= held.saturating_add(1)
    }

    // The same, or that a seat is not allowed.
    pub(crate) fn nets_at_most(&self, run: usize, held: i64, seat: usize) -> bool
        requires { seat < length self.now.prices.now }
        ensures { result ≡ nets_at_most (S.PairSource.table self.now.source.now).size held ((S.PairSource.table self.now.source.now).points run seat) (price_in self.now.prices.now seat) }
    {
        // not `is_none_or`: its closure asks that the seat has a price, and what it answers was not proved in two forms
        match self.source.points(run, seat) {
            None => true,
            Some(points) => self.is_content(held, points, seat),
        }
    }

    // Every allowed seat of a run that nets this on its own, from the lowest on.
    pub(crate) fn check_seats(&self, run: usize, held: i64) -> Result<(), Fault>
        ensures { MatchResult result
            (λ _. Passes (seat_checks (S.PairSource.table self.now.source.now) self.now.prices.now run held (S.PairSource.table self.now.source.now).size))
            (λ f. Refuses (seat_checks (S.PairSource.table self.now.source.now) self.now.prices.now run held (S.PairSource.table self.now.source.now).size) f) }
    {
        for seat in self.source.seats(run) {
            not_content(run, seat).unless(self.nets_at_most(run, held, seat))?;
        }
        Ok(())
    }

    // What a run nets on its seat.
    pub(crate) fn held_net(&self, run: usize, seat: usize) -> i64
        requires { seat < length self.now.prices.now }
        ensures { result ≡ net (S.PairSource.table self.now.source.now).size (value ((S.PairSource.table self.now.source.now).points run seat)) (price_in self.now.prices.now seat) }
    {
        self.net(self.source.points(run, seat).unwrap_or(0), seat)
    }

    // Every run, with every seat that it may take.
    pub(crate) fn check_contents(&self, seats: &[u16]) -> Result<(), Fault>
        requires { (i : ℕ) → i < length seats.now → seat_in seats.now i < length self.now.prices.now }
        ensures { MatchResult result
            (λ _. Passes (each (length seats.now) (content_checks (S.PairSource.table self.now.source.now) seats.now self.now.prices.now)))
            (λ f. Refuses (each (length seats.now) (content_checks (S.PairSource.table self.now.source.now) seats.now self.now.prices.now)) f) }
    {
        for (run, seat) in seats.iter().enumerate() {
            self.check_seats(run, self.held_net(run, usize::from(*seat)))?;
        }
        Ok(())
    }
}
