// What boards that keep a list of told prices decide by it.
ghost use Rattle.std.specs.Prelude.{◌≡◌, ℕ, ◌<◌, ◌≤◌, ◌≢◌, Decides, IsTrue, IsFalse};
ghost use Rattle.boards.specs.Limits.{seat_limit};
ghost use Rattle.boards.specs.Rows.{at};
ghost use Rattle.boards.specs.Lists.{price_at};

use crate::rows::{PriceRow, SEAT_LIMIT};
use crate::states::PriceList;

impl PriceList {
    // Zeros at n seats, or at none where n is over the limit.
    pub(crate) fn cleared(n: usize) -> Self
        ensures sized { n ≤ seat_limit → result.size ≡ n }
        ensures emptied { seat_limit < n → result.size ≡ 0 }
        ensures zeros { (k : ℕ) → at result.row k ≡ 0 }
    {
        PriceList {
            size: if n <= SEAT_LIMIT { n } else { 0 },
            row: PriceRow::new(),
        }
    }

    // How many seats there are.
    pub(crate) fn size(&self) -> usize
        ensures { result ≡ self.now.size }
    {
        self.size
    }

    // The price at a seat, or 0 past the size.
    pub(crate) fn at(&self, seat: usize) -> u64
        ensures { result ≡ price_at self.now seat }
    {
        if seat < self.size {
            self.row.prices[seat]
        } else {
            0
        }
    }

    // Takes a telling where it is for one of the seats and no lower than the price there; answers whether it was taken.
    pub(crate) fn tell(&mut self, seat: usize, x: u64) -> bool
        ensures decided { Decides result ((seat < self.old.size) × (at self.old.row seat ≤ x)) }
        ensures size { self.new.size ≡ self.old.size }
        ensures here { IsTrue result → at self.new.row seat ≡ x }
        ensures elsewhere { (k : ℕ) → k ≢ seat → at self.new.row k ≡ at self.old.row k }
        ensures refused { IsFalse result → self.new ≡ self.old }
    {
        let taken = seat < self.size && x >= self.row.prices[seat];
        if taken {
            self.row.put(seat, x);
        }
        taken
    }
}
