// The line of a run's first bid.
ghost use Rattle.std.specs.Prelude.{Some};
ghost use Rattle.commands.specs.FirstBids.{bid_text, bid_line_text};

use std::fmt;

// What a run bids where no price is above 0, in scaled points.
#[derive(Clone, Copy, PartialEq, Eq, Debug)]
pub struct FirstBid {
    pub run: usize,
    // its best seat, and what that nets
    pub seat: usize,
    pub net: i64,
    // the greatest of the floor and the other seats' nets
    pub second: i64,
    pub price: u64,
}

// A run's bid, or none where no full plan exists, as the run shows.
#[derive(Clone, Copy, PartialEq, Eq, Debug)]
pub struct BidLine {
    pub run: usize,
    pub bid: Option<FirstBid>,
}

impl fmt::Display for FirstBid {
    ghost output = { λ b. Some (bid_text b) };

    fn fmt<W: fmt::Write>(&self, f: &mut fmt::Formatter<W>) -> fmt::Result {
        write!(
            f,
            "run {} seat {} net {} second {} price {}",
            self.run, self.seat, self.net, self.second, self.price
        )
    }
}

impl fmt::Display for BidLine {
    ghost output = { λ l. Some (bid_line_text l) };

    fn fmt<W: fmt::Write>(&self, f: &mut fmt::Formatter<W>) -> fmt::Result {
        match self.bid {
            Some(bid) => write!(f, "{bid}"),
            None => write!(f, "run {} no full plan", self.run),
        }
    }
}
