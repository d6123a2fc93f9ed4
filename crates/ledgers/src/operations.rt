// The events of an auction in its ledger: bids placed, landed and dropped, the mark, and the next phase.
ghost use Rattle.std.specs.Prelude.{◌≡◌, ◌+◌, ◌*◌, ◌<◌, ◌≤◌, IsSome};
ghost use Rattle.fault.specs.Checks.{Passes};
ghost use Rattle.auction.specs.Events.{Highest};
ghost use Rattle.ledgers.specs.Rules.{phase_rise};
ghost use Rattle.ledgers.specs.Books.{price_at, bid_at, increment_of, Ends, dropped};
ghost use Rattle.ledgers.specs.Ledgers.{size_of, Ready, Deliverable, Composes, Marks, Lands, Advances};
ghost use Rattle.ledgers.specs.Refusals.{advance_checks};

use crate::books::{Bid, Counts, free, raise, seated_after, wide};
use crate::ledger::Ledger;
use bidding::sought::Offer;

// How an accepted bid came out.
#[derive(Clone, Copy, PartialEq, Eq, Debug)]
pub struct Landing {
    pub seat: usize,
    pub price: u64,
    // the run that held the seat
    pub displaced: Option<usize>,
}

impl Ledger {
    // A run's bid is out.
    pub(crate) fn place(&mut self, run: usize, offer: Offer)
        requires ready { Ready self.old.book run }
        requires fit { (offer.seat < size_of self.old) × (offer.price ≤ self.old.book.phase * phase_rise) }
        ensures { Composes self.old.book self.new.book run offer.seat offer.price }
    {
        self.book.bids[run] = Some(Bid {
            seat: offer.seat as u16,
            price: offer.price,
        });
        self.book.counts = self.book.counts.with_composed();
    }

    // A run is found to have no part in a full plan.
    pub(crate) fn mark(&mut self, run: usize)
        requires { Ready self.old.book run }
        ensures { Marks self.old.book self.new.book run }
    {
        self.book.mark = Some(run as u16);
    }

    // A run's bid is accepted. That it can be delivered is a fact about the ledger, which no type of the bid can hold.
    pub(crate) fn land(&mut self, run: usize, bid: Bid) -> Landing
        requires bid { Deliverable self.old.book run bid }
        requires enough { price_at self.old.book bid.seat + increment_of self.old.book ≤ bid.price }
        ensures { Lands self.old.book self.new.book run result.seat result.price result.displaced }
    {
        let seat = usize::from(bid.seat);
        let displaced = self.book.holders[seat];
        free(&mut self.book.seats, displaced);
        self.book.seats[run] = Some(bid.seat);
        self.book.seated = seated_after(self.book.seated, displaced);
        self.book.holders[seat] = Some(run as u16);
        raise(&mut self.book.prices.prices, seat, bid.price);
        self.book.bids[run] = None;
        self.book.counts.accepted += 1;
        self.book.counts.phase_accepted += 1;
        Landing {
            seat,
            price: bid.price,
            displaced: wide(displaced),
        }
    }

    // A run's bid is out no more, and these are the counts then.
    pub(crate) fn drop_bid(&mut self, run: usize, counts: Counts)
        requires out { IsSome (bid_at self.old.book run) }
        requires ends { Ends self.old.book.counts counts }
        ensures { self.new.book ≡ dropped self.old.book run counts }
    {
        // the counts first: after the bid all five are written, and not just the one that rises
        self.book.counts = counts;
        self.book.bids[run] = None;
    }

    // The highest price.
    pub(crate) fn highest(&self) -> u64
        ensures { Highest (size_of self.now) (price_at self.now.book) result }
    {
        self.book.prices.prices[..self.book.conditions.size]
            .iter()
            .copied()
            .max()
            .unwrap_or(0)
    }

    // The next phase begins.
    pub(crate) fn begin_phase(&mut self)
        requires { Passes (advance_checks self.old.book) }
        ensures { Advances self.old.book self.new.book }
    {
        let high = self.highest();
        self.book.begin_phase(high);
    }
}
