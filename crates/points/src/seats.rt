// The allowed seats of a run, one after the other.
ghost use Rattle.std.specs.Prelude.{◌≡◌, ℕ, ◌+◌, ◌<◌, List};
ghost use Rattle.std.specs.Iterator.{YieldsFirst, item_count};
ghost use Rattle.points.specs.Seats.{seats_from};

use crate::sources::{PairSource, RowSource};
use std::marker::Model;

// The seat after one that is not the last number.
pub(crate) fn after(seat: usize) -> usize
    requires { seat < 18446744073709551615 }
    ensures { result ≡ seat + 1 }
{
    seat + 1
}

// The allowed seats of a run that are left, seen as the list of them.
#[derive(Drop)]
pub struct AllowedSeats<'a, S: RowSource> {
    pub(crate) source: &'a S,
    // the source's size, below which every allowed seat lies
    pub(crate) size: usize,
    pub(crate) run: usize,
    pub(crate) from: usize,
}

impl<'a, S: RowSource> Model for AllowedSeats<'a, S> {
    ghost Value = { List ℕ };

    ghost view = { λ a. seats_from (S.PairSource.table a.source.now) a.run a.from };

    ghost invariant = { λ a. a.size ≡ (S.PairSource.table a.source.now).size };
}

impl<'a, S: RowSource> Iterator for AllowedSeats<'a, S> {
    type Item = usize;

    ghost next_gives = { YieldsFirst (λ rest. rest) };

    ghost remaining = { item_count (λ rest. rest) };

    fn next(&mut self) -> Option<usize> {
        let seat = self.source.next(self.run, self.from)?;
        self.from = after(seat);
        Some(seat)
    }
}
