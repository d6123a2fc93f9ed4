// The delay layer: over any board, it holds back the newest tellings.
ghost use Rattle.std.specs.Prelude.{◌≡◌, ◌+◌, ◌-◌, ◌<◌, ◌≤◌, [], take, drop, IfOk, vec_len, vec_capacity, Decides, find, reverse, ◌==◌};
ghost use Rattle.std.specs.Option.{option_map};
ghost use Rattle.boards.specs.Limits.{held_limit};
ghost use Rattle.boards.specs.Calls.{clears, tells, carries, settles};
ghost use Rattle.boards.specs.Faces.{Takes};
ghost use Rattle.boards.specs.Tellings.{newest, NewestAt, Passed};
ghost use Rattle.boards.specs.Layers.{due, delay_face, DelaySound, DelayDoes, DelayKeeps, layer_of, over_face};
ghost use Rattle.boards.specs.LayersLemmas.{layer_behind};
ghost use Rattle.std.proofs.Common.{rules};

use crate::board::PriceBoard;
use crate::states::Delay;
use crate::tellings::{Telling, tell_all};
use std::alloc::{AllocError, Global};

// The most tellings that a layer holds back.
pub const HELD_LIMIT: usize = 64;

impl<B: PriceBoard + Drop> Delay<B> {
    // A layer over a board, with nothing held; it is sound where the board below is.
    pub fn new(heap: Global, below: B) -> Result<Self, AllocError>
        ensures state { IfOk result (λ d. (d.below ≡ below) × (d.held.items ≡ [])) }
        ensures safe { IfOk result (λ d. B.PriceBoard.sound below → DelaySound B.PriceBoard d) }
    {
        let held = Vec::with_capacity(heap, HELD_LIMIT)?;
        Ok(Delay { below, held })
    }
}

impl<B: PriceBoard> Delay<B> {
    // The board below.
    pub fn below(&self) -> &B
        ensures { result.now ≡ self.now.below }
    {
        &self.below
    }

    // The price of the newest telling held for a seat, else the told price below.
    fn latest(&self, seat: usize) -> u64
        ensures { result ≡ newest self.now.held.items seat ((B.PriceBoard.face self.now.below).told seat) }
    {
        newest_held(&self.held, seat).unwrap_or_else(|| self.below.told(seat))
    }

    // Whether the layer takes a telling, by its own told price and not by that of the board below.
    fn takes(&self, seat: usize, x: u64) -> bool
        ensures { Decides result (Takes (delay_face B.PriceBoard self.now) seat x) }
    {
        seat < self.below.size() && x >= self.latest(seat)
    }

    // Tells the board below the oldest tellings in order, `count` of them or all if fewer, and holds them no more.
    fn pass(&mut self, count: usize)
        ensures held { self.new.held.items ≡ drop count self.old.held.items }
        ensures below { Passed B.PriceBoard (take count self.old.held.items) self.old.below self.new.below }
        ensures all { vec_len self.old.held ≤ count → (self.new.held.items ≡ []) × Passed B.PriceBoard self.old.held.items self.old.below self.new.below }
    {
        let passing = count.min(self.held.len());
        tell_all(&mut self.below, &self.held[..passing]);
        if passing == self.held.len() {
            self.held.clear();
        } else {
            drop_oldest(&mut self.held, passing);
        }
    }

    // Passes the oldest telling down where the layer is full.
    fn make_room(&mut self)
        ensures held { self.new.held.items ≡ drop (due self.old.held.items) self.old.held.items }
        ensures below { Passed B.PriceBoard (take (due self.old.held.items) self.old.held.items) self.old.below self.new.below }
        ensures room { vec_len self.new.held < held_limit }
    {
        if self.held.len() == HELD_LIMIT {
            self.pass(1);
        }
    }
}

// Drops the first of a list, `count` of them, without giving room back.
// (Not `drain`, which also turns what it drops: with it a telling to a full layer takes a third longer. A call, so that
// `tell` stays small enough to be written into its callers.)
#[inline(never)]
fn drop_oldest(held: &mut Vec<Telling>, count: usize)
    requires { count ≤ vec_len held.old }
    ensures held { held.new.items ≡ drop count held.old.items }
    ensures len { vec_len held.new ≤ vec_len held.old }
    ensures room { vec_capacity held.new ≡ vec_capacity held.old }
{
    let left = held.len() - count;
    held.rotate_left(count);
    held.truncate(left);
}

// The place of the newest of some tellings for a seat.
fn newest_place(held: &[Telling], seat: usize) -> Option<usize>
    ensures { NewestAt held.now seat result }
{
    // not `rev().find(..)`, whose loop takes seven instructions a telling, and this one six
    held.iter().rposition(|t| seat == t.seat)
}

// The price of the newest of some tellings for a seat.
fn newest_held(held: &[Telling], seat: usize) -> Option<u64>
    ensures { result ≡ option_map (λ t. t.price) (find (λ t. seat == t.seat) (reverse held.now)) }
{
    newest_place(held, seat).map(|k| held[k].price)
}

impl<B: PriceBoard> PriceBoard for Delay<B> {
    ghost face = { delay_face B.PriceBoard };

    ghost sound = { DelaySound B.PriceBoard };

    ghost step = { DelayDoes B.PriceBoard };

    ghost few = { Prim.search rules };

    ghost behind = { λ d s. layer_behind (over_face B.PriceBoard.face (layer_of d)) s.1 (B.PriceBoard.behind d.below s.0) (B.PriceBoard.unshown d.below) };

    ghost untold = { Prim.search rules };

    ghost unshown = { Prim.search rules };

    fn clear(&mut self, n: usize)
        ensures own { DelayDoes B.PriceBoard (clears n) self.old self.new }
        ensures does { DelayKeeps B.PriceBoard (clears n) self.old self.new }
        ensures safe { B.PriceBoard.sound self.new.below }
    {
        self.held.clear();
        self.below.clear(n);
    }

    // A telling that is taken is held as the newest.
    fn tell(&mut self, seat: usize, x: u64)
        ensures own { DelayDoes B.PriceBoard (tells seat x) self.old self.new }
        ensures does { B.PriceBoard.sound self.old.below → DelayKeeps B.PriceBoard (tells seat x) self.old self.new }
        ensures safe { B.PriceBoard.sound self.old.below → B.PriceBoard.sound self.new.below }
    {
        if self.takes(seat, x) {
            self.make_room();
            self.held.push_reserved(Telling { seat, price: x });
        }
    }

    fn size(&self) -> usize {
        self.below.size()
    }

    fn shows(&self, run: usize, seat: usize) -> u64 {
        self.below.shows(run, seat)
    }

    fn told(&self, seat: usize) -> u64 {
        if seat < self.below.size() {
            self.latest(seat)
        } else {
            0
        }
    }

    // Passes the r oldest tellings down, or all if fewer, and carries r below.
    fn carry(&mut self, r: usize)
        ensures own { DelayDoes B.PriceBoard (carries r) self.old self.new }
        ensures does { B.PriceBoard.sound self.old.below → DelayKeeps B.PriceBoard (carries r) self.old self.new }
        ensures safe { B.PriceBoard.sound self.old.below → B.PriceBoard.sound self.new.below }
    {
        self.pass(r);
        self.below.carry(r);
    }

    // Passes all tellings down, and settles the board below.
    fn settle(&mut self)
        ensures own { DelayDoes B.PriceBoard settles self.old self.new }
        ensures does { B.PriceBoard.sound self.old.below → DelayKeeps B.PriceBoard settles self.old self.new }
        ensures safe { B.PriceBoard.sound self.old.below → B.PriceBoard.sound self.new.below }
    {
        self.pass(HELD_LIMIT);
        self.below.settle();
    }
}
