// Summing up any row source.
ghost use Rattle.std.specs.Prelude.{◌≡◌};
ghost use Rattle.std.specs.List.{fold};
ghost use Rattle.points.specs.Seats.{seats_from};
ghost use Rattle.points.specs.Summaries.{stretched, noted, summary_of};

use crate::sources::{PairSource, RowSource};
use crate::summaries::{Range, Summary};

// A range stretched to some points.
pub(crate) fn stretch(range: Option<Range>, points: i32) -> Range
    ensures { result ≡ stretched range points }
{
    range.map_or(
        Range {
            least: points,
            greatest: points,
        },
        |old| Range {
            least: old.least.min(points),
            greatest: old.greatest.max(points),
        },
    )
}

// One pair more, if it is allowed.
pub(crate) fn note(seen: Summary, points: Option<i32>) -> Summary
    ensures { result ≡ noted seen points }
{
    points.map_or(
        seen,
        |points| Summary {
            allowed: seen.allowed.saturating_add(1),
            range: Some(stretch(seen.range, points)),
        },
    )
}

// The allowed seats of one run more.
pub(crate) fn note_row<S: RowSource>(source: &S, run: usize, before: Summary) -> Summary
    ensures { result ≡ fold (λ s k. noted s ((S.PairSource.table source.now).points run k)) before (seats_from (S.PairSource.table source.now) run 0) }
{
    source
        .seats(run)
        .fold(before, |seen, seat| note(seen, source.points(run, seat)))
}

// Every run of so many.
fn runs(size: usize) -> std::ops::Range<usize>
    ensures { result ≡ record { start = 0; end = size } }
{
    0..size
}

// What a source comes to.
pub fn summarize<S: RowSource>(source: &S) -> Summary
    ensures { result ≡ summary_of (S.PairSource.table source.now) }
{
    let none = Summary {
        allowed: 0,
        range: None,
    };
    runs(source.size()).fold(none, |seen, run| note_row(source, run, seen))
}
