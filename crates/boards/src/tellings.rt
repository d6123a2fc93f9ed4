// Tellings, and a list of them told to any board.
ghost use Rattle.boards.specs.Faces.{BoardDoes};
ghost use Rattle.boards.specs.Tellings.{Passed, call};

use crate::board::PriceBoard;

// A price told at a seat.
#[derive(Clone, Copy, PartialEq, Eq, Debug)]
pub struct Telling {
    pub seat: usize,
    pub price: u64,
}

// Tells a board each of the tellings, in order.
pub fn tell_all<B: PriceBoard>(board: &mut B, tellings: &[Telling])
    ensures { Passed B.PriceBoard tellings.now board.old board.new }
{
    for t in tellings {
        tell_one(board, *t);
    }
}

// Tells a board one telling.
fn tell_one<B: PriceBoard>(board: &mut B, t: Telling)
    ensures own { B.PriceBoard.step (call t) board.old board.new }
    ensures does { B.PriceBoard.sound board.old → BoardDoes (call t) (B.PriceBoard.face board.old) (B.PriceBoard.face board.new) }
    ensures safe { B.PriceBoard.sound board.old → B.PriceBoard.sound board.new }
{
    board.tell(t.seat, t.price);
}
