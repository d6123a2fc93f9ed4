// Questions to the ledger of an auction.
ghost use Rattle.std.specs.Prelude.{◌≡◌, ◌≤◌, MatchResult};
ghost use Rattle.fault.specs.Checks.{Passes, Refuses};
ghost use Rattle.points.specs.Limits.{size_limit};
ghost use Rattle.ledgers.specs.Books.{price_at, seat_at, holder_at, increment_of};
ghost use Rattle.ledgers.specs.Ledgers.{LowestFree};
ghost use Rattle.ledgers.specs.Refusals.{run_checks, seat_checks};

use crate::books::{Counts, first_none};
use crate::ledger::Ledger;
use fault::faults::Fault;

impl Ledger {
    // The price of a seat. (This and `holder` are two questions about a seat, with answers of different types.)
    pub fn price(&self, seat: usize) -> Result<u64, Fault>
        ensures { MatchResult result (λ p. Passes (seat_checks self.now.book seat) × (p ≡ price_at self.now.book seat)) (λ f. Refuses (seat_checks self.now.book seat) f) }
    {
        self.check_seat(seat)?;
        Ok(self.book.price_at(seat))
    }

    // The run that holds a seat.
    pub fn holder(&self, seat: usize) -> Result<Option<usize>, Fault>
        ensures { MatchResult result (λ o. Passes (seat_checks self.now.book seat) × (o ≡ holder_at self.now.book seat)) (λ f. Refuses (seat_checks self.now.book seat) f) }
    {
        self.check_seat(seat)?;
        Ok(self.book.holder_at(seat))
    }

    // The seat that a run holds: read in another list than `holder`, behind another test, so a function of its own.
    pub fn seat_of(&self, run: usize) -> Result<Option<usize>, Fault>
        ensures { MatchResult result (λ o. Passes (run_checks self.now.book run) × (o ≡ seat_at self.now.book run)) (λ f. Refuses (run_checks self.now.book run) f) }
    {
        self.check_run(run)?;
        Ok(self.book.seat_at(run))
    }

    // How many runs there are, and as many seats.
    pub fn size(&self) -> usize
        ensures is { result ≡ self.now.book.conditions.size }
        ensures few { (1 ≤ result) × (result ≤ size_limit) }
    {
        self.book.conditions.size
    }

    // The phase, from 1 on.
    pub fn phase(&self) -> usize
        ensures { result ≡ self.now.book.phase }
    {
        self.book.phase
    }

    // The increment of the phase.
    pub fn increment(&self) -> u64
        ensures { result ≡ increment_of self.now.book }
    {
        self.book.conditions.increments[self.book.phase - 1]
    }

    // The highest price when the phase began.
    pub fn high(&self) -> u64
        ensures { result ≡ self.now.book.high }
    {
        self.book.high
    }

    // How many bids may be composed.
    pub fn allowance(&self) -> u64
        ensures { result ≡ self.now.book.conditions.allowance }
    {
        self.book.conditions.allowance
    }

    // The bids made so far, and what became of them.
    pub fn counts(&self) -> Counts
        ensures { result ≡ self.now.book.counts }
    {
        self.book.counts
    }

    // The lowest run that holds no seat.
    pub fn lowest_free(&self) -> Option<usize>
        ensures { LowestFree self.now.book result }
    {
        first_none(&self.book.seats[..self.size()])
    }
}
