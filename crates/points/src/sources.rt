// What a source of points answers, for every kind of source.
ghost use Rattle.std.specs.Prelude.{◌≡◌, ℕ, ◌≤◌};
ghost use Rattle.points.specs.Limits.{top_limit};
ghost use Rattle.points.specs.Tables.{Table, Lawful, Next};
ghost use Rattle.points.specs.Seats.{seats_from};

use crate::seats::AllowedSeats;

// A table of points by run and seat, some pairs of which are not allowed.
pub trait PairSource {
    // the points of every source of this kind lie from -TOP to TOP
    const TOP: u32;

    ghost TOP: { ℕ };

    ghost table: { Self → Table };

    // The constant TOP, for callers to whom the kind of source is a type parameter.
    fn limit() -> u32
        ensures { result ≡ TOP };

    // How many runs there are, and as many seats.
    fn size(&self) -> usize
        ensures { result ≡ (table self.now).size };

    // The points of a run on a seat, or nothing where the pair is not allowed or a number is not below the size.
    fn points(&self, run: usize, seat: usize) -> Option<i32>
        ensures { result ≡ (table self.now).points run seat };

    ghost limits: { (1 ≤ TOP) × (TOP ≤ top_limit) };

    ghost topped: { (s : Self) → (table s).top ≡ TOP };

    ghost lawful: { (s : Self) → Lawful (table s) };
}

// A pair source whose allowed seats can be walked run by run.
pub trait RowSource: PairSource {
    // The lowest allowed seat of a run that is at least `from`, or nothing where there is none.
    fn next(&self, run: usize, from: usize) -> Option<usize>
        ensures { Next (Self.PairSource.table self.now) run from result };

    // The allowed seats of a run, ascending.
    final fn seats(&self, run: usize) -> AllowedSeats<'_, Self>
    where
        Self: Sized,
        ensures { result ≡ seats_from (Self.PairSource.table self.now) run 0 }
    {
        AllowedSeats {
            source: self,
            size: self.size(),
            run,
            from: 0,
        }
    }
}
