// Code over any board, proved once from what every board keeps.
ghost use Rattle.std.specs.Prelude.{◌≡◌, ℕ, ◌-◌, ◌<◌, ◌≤◌, ◌≢◌};
ghost use Rattle.boards.specs.Limits.{seat_limit};
ghost use Rattle.boards.specs.Piles.{pile_face};

use crate::board::PriceBoard;
use crate::states::{Delay, SiteBoard};

// Clears a board to n seats, tells it one price and settles it; answers what a run is then shown at that seat.
pub fn announce<B: PriceBoard>(board: &mut B, n: usize, seat: usize, x: u64, run: usize) -> u64
    ensures shown { n ≤ seat_limit → seat < n → run < n → result ≡ x }
    ensures size { n ≤ seat_limit → (B.PriceBoard.face board.new).size ≡ n }
    ensures told { n ≤ seat_limit → seat < n → (B.PriceBoard.face board.new).told seat ≡ x }
    ensures others { n ≤ seat_limit → seat < n → (k : ℕ) → k ≢ seat → (B.PriceBoard.face board.new).told k ≡ 0 }
    ensures safe { B.PriceBoard.sound board.new }
{
    board.clear(n);
    board.tell(seat, x);
    board.settle();
    board.shows(run, seat)
}

// How far the price that a run is shown lies below the told one.
pub fn lag<B: PriceBoard>(board: &B, run: usize, seat: usize) -> u64
    ensures { result ≡ (B.PriceBoard.face board.now).told seat - (B.PriceBoard.face board.now).shown run seat }
{
    board.told(seat).saturating_sub(board.shows(run, seat))
}

// The same through two delay layers over eight sites.
pub fn announce_through_layers(
    board: &mut Delay<Delay<SiteBoard>>,
    n: usize,
    seat: usize,
    x: u64,
    run: usize,
) -> u64
    ensures shown { n ≤ seat_limit → seat < n → run < n → result ≡ x }
    ensures size { n ≤ seat_limit → (pile_face board.new).size ≡ n }
    ensures told { n ≤ seat_limit → seat < n → (pile_face board.new).told seat ≡ x }
    ensures others { n ≤ seat_limit → seat < n → (k : ℕ) → k ≢ seat → (pile_face board.new).told k ≡ 0 }
{
    announce(board, n, seat, x, run)
}
