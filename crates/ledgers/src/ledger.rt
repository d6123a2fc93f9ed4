// A book that keeps its rules.
ghost use Rattle.std.specs.Prelude.{◌≡◌, ◌+◌, ◌*◌, ◌≤◌, length};
ghost use Rattle.points.specs.Limits.{size_limit};
ghost use Rattle.auction.specs.Limits.{phase_limit, increment_limit, allowance_limit};
ghost use Rattle.ledgers.specs.Rules.{phase_rise, count, BidsFit, Waiting, Below, Returned, UpTo};

use crate::books::Book;

// The book of a started auction, and the rules that hold between its events.
#[derive(Clone, Copy)]
pub struct Ledger {
    pub book: Book,
    ghost whole: { (length book.seats ≡ size_limit) × (length book.holders ≡ size_limit) × (length book.bids ≡ size_limit) },
    ghost long: { (length book.prices.prices ≡ size_limit) × (length book.conditions.increments ≡ phase_limit) },
    ghost sized: { (1 ≤ book.conditions.size) × (book.conditions.size ≤ size_limit) },
    ghost phased: { (1 ≤ book.phase) × (book.phase ≤ book.conditions.phases) × (book.conditions.phases ≤ phase_limit) },
    ghost small: { UpTo increment_limit book.conditions.increments },
    ghost priced: { UpTo (book.phase * phase_rise) book.prices.prices },
    ghost high: { book.high + phase_rise ≤ book.phase * phase_rise },
    ghost fit: { BidsFit book.conditions.size (book.phase * phase_rise) book.bids },
    ghost waiting: { Waiting book.seats book.bids },
    ghost runs: { Below book.conditions.size book.holders },
    ghost places: { Below book.conditions.size book.seats },
    ghost held: { Returned book.holders book.seats },
    ghost holding: { Returned book.seats book.holders },
    ghost filled: { book.seated ≡ count book.seats },
    ghost balanced: { book.counts.composed ≡ book.counts.accepted + (book.counts.outbid + (book.counts.recalled + count book.bids)) },
    ghost within: { (book.counts.phase_accepted ≤ book.counts.accepted) × (book.counts.composed ≤ book.conditions.allowance) × (book.conditions.allowance ≤ allowance_limit) },
}
