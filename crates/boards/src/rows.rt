// Rows of prices, one for each seat.
ghost use Rattle.std.specs.Prelude.{◌≡◌, ℕ, ◌<◌, ◌≤◌, ◌≢◌};
ghost use Rattle.boards.specs.Limits.{seat_limit};
ghost use Rattle.boards.specs.Rows.{at};

// The most seats, and runs, that a board has: a limit of its own, since boards know nothing of tables.
pub const SEAT_LIMIT: usize = 256;

// A price for each seat that a board may have: an array, since no call of a board takes memory.
#[derive(Clone, Copy)]
pub struct PriceRow {
    pub prices: [u64; SEAT_LIMIT],
}

impl PriceRow {
    // A row of zeros.
    pub fn new() -> Self
        ensures { (k : ℕ) → at result k ≡ 0 }
    {
        PriceRow::filled(0)
    }

    // A row of one price.
    fn filled(x: u64) -> Self
        ensures inside { (k : ℕ) → k < seat_limit → at result k ≡ x }
        ensures past { (k : ℕ) → seat_limit ≤ k → at result k ≡ 0 }
    {
        PriceRow {
            prices: [x; SEAT_LIMIT],
        }
    }

    // Puts a price at a seat; a seat past the row has no place in it.
    pub fn put(&mut self, seat: usize, x: u64)
        ensures here { seat < seat_limit → at self.new seat ≡ x }
        ensures elsewhere { (k : ℕ) → k ≢ seat → at self.new k ≡ at self.old k }
        ensures past { seat_limit ≤ seat → self.new ≡ self.old }
    {
        if seat < SEAT_LIMIT {
            self.prices[seat] = x;
        }
    }
}
