// Checks of a certificate's plan: every run has an allowed seat, and no seat is given twice.
ghost use Rattle.std.specs.Prelude.{◌≡◌, ℕ, ◌<◌, ◌≤◌, true, false, length, pos, ◌+ℤ◌, neg_ℤ, ◌≤ℤ◌, Some, None, MatchResult, slice_index_or, slice_set};
ghost use Rattle.fault.specs.Checks.{Passes, Refuses};
ghost use Rattle.fault.specs.declared.causes.Cause.TheVariants.{NotAllowed};
ghost use Rattle.points.specs.Limits.{size_limit};
ghost use Rattle.points.specs.Plans.{total};
ghost use Rattle.certificates.specs.Certificates.{seat_in, checker_fault, run_checks, plan_checks};
ghost use Rattle.certificates.specs.Marks.{Marked};

use crate::prices::checker_fault;
use fault::causes::Cause;
use fault::faults::Fault;
use points::limits::SIZE_LIMIT;
use points::sources::{PairSource, RowSource};

// Whether a seat is marked.
pub(crate) fn is_marked(marks: &[bool; SIZE_LIMIT], seat: usize) -> bool
    requires { seat < size_limit }
    ensures { result ≡ slice_index_or marks.now seat false }
{
    marks[seat]
}

// Marks a seat.
pub(crate) fn mark(marks: &mut [bool; SIZE_LIMIT], seat: usize)
    requires { seat < size_limit }
    ensures { marks.new ≡ slice_set marks.old seat true }
{
    marks[seat] = true;
}

// The points of an allowed pair.
pub(crate) fn allowed_points<S: RowSource>(
    source: &S,
    run: usize,
    seat: usize,
) -> Result<i32, Fault>
    ensures { MatchResult result
        (λ p. (S.PairSource.table source.now).points run seat ≡ Some p)
        (λ f. ((S.PairSource.table source.now).points run seat ≡ None) × (f ≡ checker_fault NotAllowed (Some run) (Some seat))) }
{
    source
        .points(run, seat)
        .ok_or(checker_fault(Cause::NotAllowed, Some(run), Some(seat)))
}

// The seat of one run: below the size, allowed, and not that of a lower run; answers its points.
pub(crate) fn check_run<S: RowSource>(
    source: &S,
    seats: &[u16],
    run: usize,
    marks: &[bool; SIZE_LIMIT],
) -> Result<i32, Fault>
    requires run { run < length seats.now }
    requires size { (S.PairSource.table source.now).size ≤ size_limit }
    requires marked { Marked seats.now run marks.now }
    ensures { MatchResult result
        (λ p. Passes (run_checks (S.PairSource.table source.now) seats.now run) × ((S.PairSource.table source.now).points run (seat_in seats.now run) ≡ Some p))
        (λ f. Refuses (run_checks (S.PairSource.table source.now) seats.now run) f) }
{
    let seat = usize::from(seats[run]);
    checker_fault(Cause::Number, Some(run), Some(seat)).unless(seat < source.size())?;
    let points = allowed_points(source, run, seat)?;
    checker_fault(Cause::SeatTaken, Some(run), Some(seat)).unless(!is_marked(marks, seat))?;
    Ok(points)
}

// One run's points more.
pub(crate) fn add_points(sum: i64, points: i32) -> i64
    requires { (neg_ℤ (pos 256000000) ≤ℤ sum) × (sum ≤ℤ pos 256000000) }
    ensures { result ≡ sum +ℤ points }
{
    sum + i64::from(points)
}

// The seats of all runs; answers the total of their points.
pub(crate) fn check_plan<S: RowSource>(source: &S, seats: &[u16]) -> Result<i64, Fault>
    requires seated { length seats.now ≡ (S.PairSource.table source.now).size }
    requires size { (S.PairSource.table source.now).size ≤ size_limit }
    ensures { MatchResult result
        (λ a. Passes (plan_checks (S.PairSource.table source.now) seats.now) × (a ≡ total (S.PairSource.table source.now) (seat_in seats.now)))
        (λ f. Refuses (plan_checks (S.PairSource.table source.now) seats.now) f) }
{
    // an array of the greatest size: a check allocates nothing
    let mut marks = [false; SIZE_LIMIT];
    let mut sum: i64 = 0;
    for (run, seat) in seats.iter().enumerate() {
        let points = check_run(source, seats, run, &marks)?;
        sum = add_points(sum, points);
        mark(&mut marks, usize::from(*seat));
    }
    Ok(sum)
}
