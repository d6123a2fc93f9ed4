// The states of the boards.
ghost use Rattle.std.specs.Prelude.{◌≤◌, vec_len, vec_capacity};
ghost use Rattle.boards.specs.Limits.{seat_limit, held_limit};
ghost use Rattle.boards.specs.Copies.{LevelOutside};

use crate::copies::{SITES, SiteCopy};
use crate::rows::PriceRow;
use crate::tellings::Telling;

// The told prices of a board, and how many of its row's seats are seats of the board: a row of the greatest size, since no
// call of a board takes memory.
#[derive(Clone, Copy)]
pub(crate) struct PriceList {
    pub(crate) size: usize,
    pub(crate) row: PriceRow,
    ghost few: { size ≤ seat_limit },
}

// A board that shows every run what it was told.
#[derive(Drop)]
pub struct CommonBoard {
    pub(crate) told: PriceList,
}

// A board of eight sites, each with a copy of the told prices that only a carry or a settle brings up.
// The copies are an array, since no call of a board takes memory.
#[derive(Drop)]
pub struct SiteBoard {
    pub(crate) told: PriceList,
    pub(crate) copies: [SiteCopy; SITES],
    ghost level: { LevelOutside told.row copies },
}

// A board, and the tellings held back from it, the oldest first.
// The room for all that may be held is there from the start, so that a telling never lacks memory.
#[derive(Drop)]
pub struct Delay<B> {
    pub(crate) below: B,
    pub(crate) held: Vec<Telling>,
    ghost few: { vec_len held ≤ held_limit },
    ghost room: { held_limit ≤ vec_capacity held },
}
