// The start of an auction.
ghost use Rattle.std.specs.Prelude.{◌≡◌, ◌-◌, ◌≤◌, length, MatchResult};
ghost use Rattle.fault.specs.Checks.{Passes, Refuses};
ghost use Rattle.auction.specs.Limits.{phase_limit};
ghost use Rattle.ledgers.specs.Ledgers.{Starts};
ghost use Rattle.ledgers.specs.Opening.{Copied};
ghost use Rattle.ledgers.specs.Refusals.{start_fault, fall_checks, ladder_checks, start_checks};

use crate::books::{Book, Conditions};
use crate::ledger::Ledger;
use auction::limits::{ALLOWANCE_LIMIT, INCREMENT_LIMIT, PHASE_LIMIT};
use fault::causes::Cause;
use fault::faults::Fault;
use fault::layers::Layer;
use points::limits::SIZE_LIMIT;

// A fault of an auction that is not started.
fn start_fault(cause: Cause) -> Fault
    ensures { result ≡ start_fault cause }
{
    Fault::in_phase(Layer::Exchange, cause, 0, None, None)
}

// Every increment falls to the next.
fn check_falls(ladder: &[u64]) -> Result<(), Fault>
    ensures { MatchResult result
        (λ _. Passes (fall_checks ladder.now (length ladder.now - 1)))
        (λ f. Refuses (fall_checks ladder.now (length ladder.now - 1)) f) }
{
    start_fault(Cause::Ladder).unless(ladder.is_sorted_by(|one, next| one > next))
}

// The increments make a ladder.
fn check_ladder(ladder: &[u64]) -> Result<(), Fault>
    ensures { MatchResult result (λ _. Passes (ladder_checks ladder.now)) (λ f. Refuses (ladder_checks ladder.now) f) }
{
    let first = ladder.first().copied().unwrap_or(0);
    let last = ladder.last().copied().unwrap_or(0);
    start_fault(Cause::Ladder).unless((1..=PHASE_LIMIT).contains(&ladder.len()))?;
    start_fault(Cause::Ladder).unless(first <= INCREMENT_LIMIT)?;
    check_falls(ladder)?;
    start_fault(Cause::Ladder).unless(last == 1)
}

// Size, ladder and allowance of an auction, in this order.
fn check_start(size: usize, ladder: &[u64], allowance: u64) -> Result<(), Fault>
    ensures { MatchResult result (λ _. Passes (start_checks size ladder.now allowance)) (λ f. Refuses (start_checks size ladder.now allowance) f) }
{
    start_fault(Cause::Size).unless((1..=SIZE_LIMIT).contains(&size))?;
    check_ladder(ladder)?;
    start_fault(Cause::Allowance).unless((1..=ALLOWANCE_LIMIT).contains(&allowance))
}

// The increments, and zeros behind them.
fn padded(ladder: &[u64]) -> [u64; PHASE_LIMIT]
    requires { length ladder.now ≤ phase_limit }
    ensures { Copied ladder.now result }
{
    let mut increments = [0; PHASE_LIMIT];
    increments[..ladder.len()].copy_from_slice(ladder);
    increments
}

impl Ledger {
    // Starts an auction of so many runs and seats, with this ladder and this allowance.
    pub fn open(size: usize, ladder: &[u64], allowance: u64) -> Result<Ledger, Fault>
        ensures { MatchResult result
            (λ l. Passes (start_checks size ladder.now allowance) × Starts size ladder.now allowance l)
            (λ f. Refuses (start_checks size ladder.now allowance) f) }
    {
        check_start(size, ladder, allowance)?;
        let increments = padded(ladder);
        let phases = ladder.len();
        let book = Book::new(Conditions {
            size,
            increments,
            phases,
            allowance,
        });
        Ok(Ledger { book })
    }
}
