// The book of an auction, and how it is read.
ghost use Rattle.std.specs.Prelude.{◌≡◌, ◌+◌, ◌<◌, ◌≤◌, IfSome, slice_set};
ghost use Rattle.auction.specs.Limits.{phase_limit, allowance_limit};
ghost use Rattle.points.specs.Limits.{size_limit};
ghost use Rattle.ledgers.specs.Books.{price_at, seat_at, holder_at, bid_at, freed, seated_after, advanced, blank, FirstNone};

use auction::limits::PHASE_LIMIT;
use boards::rows::PriceRow;
use points::limits::SIZE_LIMIT;

// A bid that is out: its seat, and its price in scaled points.
#[derive(Clone, Copy, PartialEq, Eq, Debug)]
pub struct Bid {
    pub seat: u16,
    pub price: u64,
}

// What is settled when an auction starts.
#[derive(Clone, Copy, PartialEq, Eq, Debug)]
pub struct Conditions {
    // how many runs there are, and as many seats
    pub size: usize,
    // the increments, of which the first `phases` count: a `Vec` allocates, and an `ArrayVec` is not `Copy`, as a book is
    pub increments: [u64; PHASE_LIMIT],
    pub phases: usize,
    // how many bids may be composed
    pub allowance: u64,
}

// How many bids were made, and what became of them.
#[derive(Clone, Copy, PartialEq, Eq, Debug)]
pub struct Counts {
    pub composed: u64,
    pub accepted: u64,
    pub outbid: u64,
    pub recalled: u64,
    // the bids accepted in the current phase
    pub phase_accepted: u64,
}

// The state of an auction. Each rule of a book is about one or two whole lists, so they stand side by side, and are no list
// of structs; and they are arrays of the greatest size, since no call takes memory.
#[derive(Clone, Copy)]
pub struct Book {
    pub conditions: Conditions,
    // the phase, from 1 on
    pub phase: usize,
    // the highest price when the phase began
    pub high: u64,
    pub prices: PriceRow,
    // the seat of each run, and the run on each seat
    pub seats: [Option<u16>; SIZE_LIMIT],
    pub holders: [Option<u16>; SIZE_LIMIT],
    // how many runs hold a seat
    pub seated: usize,
    pub bids: [Option<Bid>; SIZE_LIMIT],
    // a run found to have no part in a full plan
    pub mark: Option<u16>,
    pub counts: Counts,
}

// A run or a seat, if there is one, as a number of any size.
pub(crate) fn wide(number: Option<u16>) -> Option<usize>
    ensures { result ≡ number }
{
    number.map(usize::from)
}

// The run displaced, if any, holds no seat any more.
pub(crate) fn free(seats: &mut [Option<u16>; SIZE_LIMIT], displaced: Option<u16>)
    requires { IfSome displaced (λ r. r < size_limit) }
    ensures { seats.new ≡ freed seats.old displaced }
{
    if let Some(run) = displaced {
        seats[usize::from(run)] = None;
    }
}

// How many runs hold a seat once one more does and the run displaced, if any, does not.
pub(crate) fn seated_after(seated: usize, displaced: Option<u16>) -> usize
    requires { seated ≤ size_limit }
    ensures { result ≡ seated_after seated displaced }
{
    match displaced {
        Some(_) => seated,
        None => seated + 1,
    }
}

// The first place that has no entry.
pub(crate) fn first_none(entries: &[Option<u16>]) -> Option<usize>
    ensures { FirstNone entries.now result }
{
    entries.iter().position(Option::is_none)
}

// A seat's price is the one given.
pub(crate) fn raise(prices: &mut [u64; SIZE_LIMIT], seat: usize, price: u64)
    requires { seat < size_limit }
    ensures { prices.new ≡ slice_set prices.old seat price }
{
    prices[seat] = price;
}

// One function for each count that rises: to hand over which count it is takes more words than the sum.
impl Counts {
    // One bid more is composed.
    pub(crate) fn with_composed(self) -> Counts
        requires { self.composed ≤ allowance_limit }
        ensures { result ≡ record self { composed = self.composed + 1 } }
    {
        let composed = self.composed + 1;
        Counts { composed, ..self }
    }

    // One bid more was outbid.
    pub(crate) fn with_outbid(self) -> Counts
        requires { self.outbid ≤ allowance_limit }
        ensures { result ≡ record self { outbid = self.outbid + 1 } }
    {
        let outbid = self.outbid + 1;
        Counts { outbid, ..self }
    }

    // One bid more was recalled.
    pub(crate) fn with_recalled(self) -> Counts
        requires { self.recalled ≤ allowance_limit }
        ensures { result ≡ record self { recalled = self.recalled + 1 } }
    {
        let recalled = self.recalled + 1;
        Counts { recalled, ..self }
    }
}

impl Book {
    // The next phase begins, and this is the highest price.
    pub(crate) fn begin_phase(&mut self, high: u64)
        requires { self.old.phase ≤ phase_limit }
        ensures { self.new ≡ advanced self.old high }
    {
        self.phase += 1;
        self.high = high;
        self.seats = [None; SIZE_LIMIT];
        self.holders = [None; SIZE_LIMIT];
        self.seated = 0;
        self.counts.phase_accepted = 0;
    }

    // The price of a seat, or 0 past the last.
    pub(crate) fn price_at(&self, seat: usize) -> u64
        ensures { result ≡ price_at self.now seat }
    {
        self.prices.prices.get(seat).copied().unwrap_or(0)
    }

    // (these three read a list each, by one line of the library's methods)
    // The seat that a run holds.
    pub(crate) fn seat_at(&self, run: usize) -> Option<usize>
        ensures { result ≡ seat_at self.now run }
    {
        wide(self.seats.get(run).copied().flatten())
    }

    // The run that holds a seat.
    pub(crate) fn holder_at(&self, seat: usize) -> Option<usize>
        ensures { result ≡ holder_at self.now seat }
    {
        wide(self.holders.get(seat).copied().flatten())
    }

    // The bid of a run that is out.
    pub(crate) fn bid_at(&self, run: usize) -> Option<Bid>
        ensures { result ≡ bid_at self.now run }
    {
        self.bids.get(run).copied().flatten()
    }

    // The book of an auction that starts under these conditions.
    pub(crate) fn new(conditions: Conditions) -> Book
        ensures { result ≡ blank conditions }
    {
        Book {
            conditions,
            phase: 1,
            high: 0,
            prices: PriceRow {
                prices: [0; SIZE_LIMIT],
            },
            seats: [None; SIZE_LIMIT],
            holders: [None; SIZE_LIMIT],
            seated: 0,
            bids: [None; SIZE_LIMIT],
            mark: None,
            counts: Counts {
                composed: 0,
                accepted: 0,
                outbid: 0,
                recalled: 0,
                phase_accepted: 0,
            },
        }
    }
}
