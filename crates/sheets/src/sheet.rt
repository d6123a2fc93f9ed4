// Sheets of any layout: bytes that keep every rule, and the points that they hold.
ghost use Rattle.std.specs.Prelude.{◌≡◌, ℕ, ◌<◌, true, [], List, length, MatchResult};
ghost use Rattle.fault.specs.Checks.{Checks, Passes, Refuses, kept};
ghost use Rattle.points.specs.Tables.{Table, Lawful, Next};
ghost use Rattle.sheets.specs.Headers.{size_in, sheet_top};
ghost use Rattle.std.proofs.Common.{rules};

use crate::checks::SHEET_TOP;
use crate::fields::no_bytes;
use fault::faults::Fault;
use points::sources::{PairSource, RowSource};
use std::alloc::Global;
use std::marker::PhantomData;

// How sheets of one kind lay their table out as bytes.
// Bytes and size stay two parameters: they are the two fields of a sheet, and a struct of both would be a second sheet.
pub(crate) trait Layout {
    ghost checks: { List ℕ → Checks };

    ghost table: { List ℕ → Table };

    // Every rule, in order; answers the size.
    fn check(bytes: &[u8]) -> Result<usize, Fault>
        ensures { MatchResult result (λ n. Passes (checks bytes.now) × (n ≡ size_in bytes.now)) (λ f. Refuses (checks bytes.now) f) };

    // The points of a run on a seat, or nothing where the pair is not allowed or the seat is not below the size.
    fn points(bytes: &[u8], size: usize, run: usize, seat: usize) -> Option<i32>
        requires size { (size ≡ size_in bytes.now) × (run < size) }
        requires passes { Passes (checks bytes.now) }
        ensures { result ≡ (table bytes.now).points run seat };

    // The lowest allowed seat of a run that is at least `from`, or nothing where there is none.
    fn next(bytes: &[u8], size: usize, run: usize, from: usize) -> Option<usize>
        requires size { (size ≡ size_in bytes.now) × (run < size) }
        requires passes { Passes (checks bytes.now) }
        ensures { Next (table bytes.now) run from result };

    ghost sized: { (bs : List ℕ) → (table bs).size ≡ size_in bs };

    ghost topped: { (bs : List ℕ) → (table bs).top ≡ sheet_top };

    ghost lawful: { (bs : List ℕ) → (0 < length bs → kept (checks bs) ≡ true) → Lawful (table bs) };
}

// A sheet, by its bytes: none, or bytes that keep every rule of its layout.
#[derive(Drop)]
pub struct Sheet<K: Layout> {
    bytes: Vec<u8>,
    size: usize,
    layout: PhantomData<K>,
    ghost sized: { size ≡ size_in bytes.items },
    ghost keeps: { 0 < length bytes.items → kept (K.checks bytes.items) ≡ true },
}

impl<K: Layout> Sheet<K> {
    // The empty sheet, of size 0.
    pub fn new(heap: Global) -> Self
        ensures { result.bytes.items ≡ [] }
    {
        Sheet {
            bytes: no_bytes(heap),
            size: 0,
            layout: PhantomData,
        }
    }

    // Takes the bytes where they keep every rule; else says which rule they break first, and leaves the sheet as it was.
    pub fn fill(&mut self, bytes: Vec<u8>) -> Result<(), Fault>
        ensures { MatchResult result
            (λ _. Passes (K.checks bytes.items) × (self.new.bytes ≡ bytes))
            (λ f. Refuses (K.checks bytes.items) f × (self.new ≡ self.old)) }
    {
        *self = Sheet::read(bytes)?;
        Ok(())
    }

    // The sheet of these bytes, where they keep every rule.
    pub(crate) fn read(bytes: Vec<u8>) -> Result<Self, Fault>
        ensures { MatchResult result
            (λ s. Passes (K.checks bytes.items) × (s.bytes ≡ bytes))
            (λ f. Refuses (K.checks bytes.items) f) }
    {
        let size = K::check(&bytes)?;
        Ok(Sheet {
            bytes,
            size,
            layout: PhantomData,
        })
    }
}

impl<K: Layout> PairSource for Sheet<K> {
    const TOP: u32 = SHEET_TOP as u32;

    ghost TOP = { sheet_top };

    ghost table = { λ s. K.table s.bytes.items };

    ghost limits = { Prim.search rules };

    ghost topped = { λ s. K.topped s.bytes.items };

    ghost lawful = { λ s. K.lawful s.bytes.items s.keeps };

    fn limit() -> u32 {
        Self::TOP
    }

    fn size(&self) -> usize {
        self.size
    }

    fn points(&self, run: usize, seat: usize) -> Option<i32> {
        if run >= self.size {
            return None;
        }
        K::points(&self.bytes, self.size, run, seat)
    }
}

impl<K: Layout> RowSource for Sheet<K> {
    fn next(&self, run: usize, from: usize) -> Option<usize> {
        if run < self.size {
            K::next(&self.bytes, self.size, run, from)
        } else {
            None
        }
    }
}
