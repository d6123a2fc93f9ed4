// The tests of each call of a started auction, in their order.
ghost use Rattle.std.specs.Prelude.{◌≡◌, Some, None, MatchResult, OnOk, ◌==◌};
ghost use Rattle.fault.specs.Checks.{Passes, Refuses};
ghost use Rattle.fault.specs.declared.causes.Cause.TheVariants.{NoBidOut};
ghost use Rattle.ledgers.specs.Books.{bid_at};
ghost use Rattle.ledgers.specs.Rules.{count};
ghost use Rattle.ledgers.specs.Ledgers.{Ready};
ghost use Rattle.ledgers.specs.Refusals.{phase_fault, run_fault, run_checks, seat_checks, mark_checks, compose_checks, deliver_checks, recall_checks, advance_checks};

use crate::books::{Bid, wide};
use crate::ledger::Ledger;
use fault::causes::Cause;
use fault::faults::Fault;
use fault::layers::Layer;

impl Ledger {
    // A fault in the current phase.
    pub(crate) fn phase_fault(&self, cause: Cause, run: Option<usize>, seat: Option<usize>) -> Fault
        ensures { result ≡ phase_fault self.now.book cause run seat }
    {
        Fault::in_phase(Layer::Exchange, cause, self.book.phase, run, seat)
    }

    // A fault that names a run.
    pub(crate) fn run_fault(&self, cause: Cause, run: usize) -> Fault
        ensures { result ≡ run_fault self.now.book cause run }
    {
        self.phase_fault(cause, Some(run), None)
    }

    // A run below the size.
    pub(crate) fn check_run(&self, run: usize) -> Result<(), Fault>
        ensures { MatchResult result (λ _. Passes (run_checks self.now.book run)) (λ f. Refuses (run_checks self.now.book run) f) }
    {
        self.run_fault(Cause::Number, run)
            .unless(run < self.book.conditions.size)
    }

    // A seat below the size.
    pub(crate) fn check_seat(&self, seat: usize) -> Result<(), Fault>
        ensures { MatchResult result (λ _. Passes (seat_checks self.now.book seat)) (λ f. Refuses (seat_checks self.now.book seat) f) }
    {
        self.phase_fault(Cause::Number, None, Some(seat))
            .unless(seat < self.book.conditions.size)
    }

    // No run is marked.
    pub(crate) fn check_mark(&self) -> Result<(), Fault>
        ensures { MatchResult result (λ _. Passes (mark_checks self.now.book)) (λ f. Refuses (mark_checks self.now.book) f) }
    {
        let mark = wide(self.book.mark);
        self.phase_fault(Cause::NoFullPlan, mark, None)
            .unless(mark.is_none())
    }

    // Whether every run holds a seat.
    pub(crate) fn is_complete(&self) -> bool
        ensures { result ≡ (count self.now.book.seats == self.now.book.conditions.size) }
    {
        self.book.seated == self.book.conditions.size
    }

    // The bid of a run that is out, or the fault where there is none.
    pub(crate) fn bid_out(&self, run: usize) -> Result<Bid, Fault>
        ensures { MatchResult result (λ x. bid_at self.now.book run ≡ Some x) (λ f. (bid_at self.now.book run ≡ None) × (f ≡ run_fault self.now.book NoBidOut run)) }
    {
        // not `ok_or`: with it and a fault made at every call a delivery that is outbid takes two fifths more instructions
        self.book
            .bid_at(run)
            .ok_or_else(|| self.run_fault(Cause::NoBidOut, run))
    }

    // The next phase may begin.
    pub(crate) fn check_advance(&self) -> Result<(), Fault>
        ensures { MatchResult result (λ _. Passes (advance_checks self.now.book)) (λ f. Refuses (advance_checks self.now.book) f) }
    {
        self.check_mark()?;
        self.phase_fault(Cause::RunFree, None, None)
            .unless(self.is_complete())?;
        self.phase_fault(Cause::LastPhase, None, None)
            .unless(self.book.phase < self.book.conditions.phases)
    }

    // The bid of a run that can be delivered.
    pub(crate) fn check_deliver(&self, run: usize) -> Result<Bid, Fault>
        ensures { MatchResult result (λ x. Passes (deliver_checks self.now.book run) × (bid_at self.now.book run ≡ Some x)) (λ f. Refuses (deliver_checks self.now.book run) f) }
    {
        self.check_run(run)?;
        self.check_mark()?;
        self.bid_out(run)
    }

    // The bid of a run that can be recalled.
    pub(crate) fn check_recall(&self, run: usize) -> Result<Bid, Fault>
        ensures { MatchResult result (λ x. Passes (recall_checks self.now.book run) × (bid_at self.now.book run ≡ Some x)) (λ f. Refuses (recall_checks self.now.book run) f) }
    {
        self.check_run(run)?;
        self.bid_out(run)
    }

    // Whether a run may compose a bid now, or why not.
    pub fn check_compose(&self, run: usize) -> Result<(), Fault>
        ensures is { MatchResult result (λ _. Passes (compose_checks self.now.book run)) (λ f. Refuses (compose_checks self.now.book run) f) }
        ensures ready { OnOk result (Ready self.now.book run) }
    {
        self.check_run(run)?;
        self.check_mark()?;
        self.run_fault(Cause::HoldsSeat, run)
            .unless(self.book.seat_at(run).is_none())?;
        self.run_fault(Cause::BidOut, run)
            .unless(self.book.bid_at(run).is_none())?;
        self.run_fault(Cause::AllowanceSpent, run)
            .unless(self.book.counts.composed < self.book.conditions.allowance)
    }
}
