// The common board: what is shown is always what was told.
ghost use Rattle.boards.specs.Faces.{Cleared};
ghost use Rattle.boards.specs.Commons.{common_face, common_sound, CommonDoes};
ghost use Rattle.std.proofs.Common.{rules};

use crate::board::PriceBoard;
use crate::states::{CommonBoard, PriceList};

impl CommonBoard {
    // A board of no seats.
    pub fn new() -> Self
        ensures { Cleared 0 (common_face result) }
    {
        CommonBoard {
            told: PriceList::cleared(0),
        }
    }
}

impl PriceBoard for CommonBoard {
    ghost face = { common_face };

    ghost sound = { common_sound };

    ghost step = { CommonDoes };

    ghost few = { Prim.search rules };

    ghost behind = { Prim.search rules };

    ghost untold = { Prim.search rules };

    ghost unshown = { Prim.search rules };

    fn clear(&mut self, n: usize) {
        self.told = PriceList::cleared(n);
    }

    fn tell(&mut self, seat: usize, x: u64) {
        self.told.tell(seat, x);
    }

    fn size(&self) -> usize {
        self.told.size()
    }

    fn shows(&self, run: usize, seat: usize) -> u64 {
        if run < self.size() {
            self.told(seat)
        } else {
            0
        }
    }

    fn told(&self, seat: usize) -> u64 {
        self.told.at(seat)
    }

    fn carry(&mut self, _r: usize) {
        // nothing lags that could be carried
    }

    fn settle(&mut self) {
        // nothing lags that could be settled
    }
}
