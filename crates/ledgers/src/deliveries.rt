// Delivering and recalling bids, and the next phase: with their refusals.
ghost use Rattle.std.specs.Prelude.{◌≡◌, ◌+◌, ◌<◌, MatchResult, nat_le};
ghost use Rattle.fault.specs.Checks.{Passes, Refuses};
ghost use Rattle.ledgers.specs.Books.{price_at, increment_of};
ghost use Rattle.ledgers.specs.Ledgers.{Deliverable, Recalls, Advances};
ghost use Rattle.ledgers.specs.Deliveries.{Delivers};
ghost use Rattle.ledgers.specs.Refusals.{deliver_checks, recall_checks, advance_checks};

use crate::books::Bid;
use crate::ledger::Ledger;
use crate::operations::Landing;
use fault::faults::Fault;

// How a delivered bid comes out. No `Result`: both are answers of a delivery that went through.
#[derive(Clone, Copy, PartialEq, Eq, Debug)]
pub enum Delivery {
    Accepted(Landing),
    // at this seat and its price
    Outbid { seat: usize, price: u64 },
}

impl Ledger {
    // Whether a bid reaches its seat's price and the increment.
    pub(crate) fn reaches(&self, bid: Bid) -> bool
        ensures { result ≡ nat_le (price_at self.now.book bid.seat + increment_of self.now.book) bid.price }
    {
        bid.price >= self.book.price_at(usize::from(bid.seat)) + self.increment()
    }

    // A run's bid is outbid at its seat's price, and dropped.
    pub(crate) fn outbid(&mut self, run: usize, bid: Bid) -> Delivery
        requires bid { Deliverable self.old.book run bid }
        requires little { bid.price < price_at self.old.book bid.seat + increment_of self.old.book }
        ensures { Delivers self.old.book self.new.book run result }
    {
        let seat = usize::from(bid.seat);
        let price = self.book.price_at(seat);
        self.drop_bid(run, self.book.counts.with_outbid());
        Delivery::Outbid { seat, price }
    }

    // Delivers a run's bid, which is used up.
    pub fn deliver(&mut self, run: usize) -> Result<Delivery, Fault>
        ensures { MatchResult result
            (λ d. Passes (deliver_checks self.old.book run) × Delivers self.old.book self.new.book run d)
            (λ f. Refuses (deliver_checks self.old.book run) f × (self.new.book ≡ self.old.book)) }
    {
        let bid = self.check_deliver(run)?;
        if self.reaches(bid) {
            return Ok(Delivery::Accepted(self.land(run, bid)));
        }
        Ok(self.outbid(run, bid))
    }

    // Drops a run's bid.
    pub fn recall(&mut self, run: usize) -> Result<(), Fault>
        ensures { MatchResult result
            (λ _. Passes (recall_checks self.old.book run) × Recalls self.old.book self.new.book run)
            (λ f. Refuses (recall_checks self.old.book run) f × (self.new.book ≡ self.old.book)) }
    {
        self.check_recall(run)?;
        self.drop_bid(run, self.book.counts.with_recalled());
        Ok(())
    }

    // Begins the next phase, when every run holds a seat.
    pub fn advance(&mut self) -> Result<(), Fault>
        ensures { MatchResult result
            (λ _. Passes (advance_checks self.old.book) × Advances self.old.book self.new.book)
            (λ f. Refuses (advance_checks self.old.book) f × (self.new.book ≡ self.old.book)) }
    {
        self.check_advance()?;
        self.begin_phase();
        Ok(())
    }
}
