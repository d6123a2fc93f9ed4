// What two runs read on any board, before and after it is carried and settled.
ghost use Rattle.std.specs.Prelude.{◌≡◌};

use boards::board::PriceBoard;
use std::fmt;

// What runs 0 and 1 are shown at one seat.
#[derive(Clone, Copy, PartialEq, Eq, Debug)]
pub struct Reading {
    pub first: u64,
    pub second: u64,
}

impl fmt::Display for Reading {
    fn fmt<W: fmt::Write>(&self, f: &mut fmt::Formatter<W>) -> fmt::Result {
        write!(f, "run 0 reads {}, run 1 reads {}", self.first, self.second)
    }
}

// Readings at seat 1: after a telling of 7, after 1 was carried, and after a settle.
#[derive(Clone, Copy, PartialEq, Eq, Debug)]
pub struct Seen {
    pub told: Reading,
    pub carried: Reading,
    pub settled: Reading,
}

fn read<B: PriceBoard>(board: &B) -> Reading
    ensures first { result.first ≡ (B.PriceBoard.face board.now).shown 0 1 }
    ensures second { result.second ≡ (B.PriceBoard.face board.now).shown 1 1 }
{
    Reading {
        first: board.shows(0, 1),
        second: board.shows(1, 1),
    }
}

// Whatever the kind of board, both runs read the told price once it is settled.
pub fn watch<B: PriceBoard>(board: &mut B) -> Seen
    ensures first { result.settled.first ≡ 7 }
    ensures second { result.settled.second ≡ 7 }
{
    board.clear(10);
    board.tell(1, 7);
    let told = read(board);
    board.carry(1);
    let carried = read(board);
    board.settle();
    Seen {
        told,
        carried,
        settled: read(board),
    }
}

// Two seats, and the prices 1 to `count` told at seat 0.
pub fn tell_up_to<B: PriceBoard>(board: &mut B, count: u64) {
    board.clear(2);
    for x in 1..=count {
        board.tell(0, x);
    }
}
