// What a price board answers and does, for every kind of board.
ghost use Rattle.std.specs.Prelude.{◌≡◌, ℕ, ◌≤◌, ◌⊎◌};
ghost use Rattle.boards.specs.Limits.{seat_limit};
ghost use Rattle.boards.specs.Calls.{Call, clears, tells, carries, settles};
ghost use Rattle.boards.specs.Faces.{Face, Cleared, Told, Carried, Settled};

// Prices that are told to a board, and that it shows to each run, at once or later.
pub trait PriceBoard {
    // what the board means: its size, told prices and shown prices
    ghost face: { Self → Face };

    // the states in which the board keeps its rules
    ghost sound: { Self → Type 0 };

    // all that a call does to a board of this kind
    ghost step: { Call → Self → Self → Type 0 };

    // Makes a board of n seats, or of none where n is over the limit, with every price 0.
    fn clear(&mut self, n: usize)
        ensures own { step (clears n) self.old self.new }
        ensures does { Cleared n (face self.new) }
        ensures safe { sound self.new };

    // Tells the price x of a seat, which is taken if the seat is one and x is at least its told price.
    fn tell(&mut self, seat: usize, x: u64)
        ensures own { step (tells seat x) self.old self.new }
        ensures does { sound self.old → Told (face self.old) (face self.new) seat x }
        ensures safe { sound self.old → sound self.new };

    // How many seats there are, and as many runs.
    fn size(&self) -> usize
        ensures { result ≡ (face self.now).size };

    // The price that a run is shown at a seat, or 0 where one of them is not below the size.
    fn shows(&self, run: usize, seat: usize) -> u64
        ensures { result ≡ (face self.now).shown run seat };

    // The told price of a seat, or 0 where it is not below the size.
    fn told(&self, seat: usize) -> u64
        ensures { result ≡ (face self.now).told seat };

    // Brings prices closer to being shown; r names a site, or says how many tellings, as the kind of board has it.
    fn carry(&mut self, r: usize)
        ensures own { step (carries r) self.old self.new }
        ensures does { sound self.old → Carried (face self.old) (face self.new) }
        ensures safe { sound self.old → sound self.new };

    // Has every run shown every told price.
    fn settle(&mut self)
        ensures own { step settles self.old self.new }
        ensures does { sound self.old → Settled (face self.old) (face self.new) }
        ensures safe { sound self.old → sound self.new };

    ghost few: { (b : Self) → (face b).size ≤ seat_limit };

    ghost behind: { (b : Self) → sound b → (i k : ℕ) → (face b).shown i k ≤ (face b).told k };

    ghost untold: { (b : Self) (k : ℕ) → (face b).size ≤ k → (face b).told k ≡ 0 };

    ghost unshown: { (b : Self) (i k : ℕ) → ((face b).size ≤ i) ⊎ ((face b).size ≤ k) → (face b).shown i k ≡ 0 };
}
