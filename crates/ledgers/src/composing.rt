// Composing a bid: the tests, the search, and then the bid that is out, or the mark.
ghost use Rattle.std.specs.Prelude.{◌≡◌, ◌≤◌, MatchResult, OnOk};
ghost use Rattle.fault.specs.Checks.{Passes, Refuses};
ghost use Rattle.points.specs.Limits.{top_limit};
ghost use Rattle.bidding.specs.Searches.{HasTerms, limited_to, ToldWithin};
ghost use Rattle.ledgers.specs.Books.{increment_of};
ghost use Rattle.ledgers.specs.Ledgers.{size_of, Ready};
ghost use Rattle.ledgers.specs.Composing.{composing_checks, OffersIn, Composing};

use crate::ledger::Ledger;
use bidding::search::compose_bid;
use bidding::sought::Offer;
use bidding::terms::Terms;
use boards::board::PriceBoard;
use fault::causes::Cause;
use fault::faults::Fault;
use points::sources::{PairSource, RowSource};

impl Ledger {
    // Composes a run's bid over a source at the prices that a board shows the run; where it has none, the ledger is marked.
    pub fn compose<S: RowSource, B: PriceBoard>(
        &mut self,
        source: &S,
        board: &B,
        run: usize,
    ) -> Result<Offer, Fault>
        ensures limited { Composing (S.PairSource.table source.now) (limited_to (B.PriceBoard.face board.now)) self.old.book self.new.book run result }
        ensures shown { B.PriceBoard.sound board.now → ToldWithin (B.PriceBoard.face board.now) → Composing (S.PairSource.table source.now) (B.PriceBoard.face board.now).shown self.old.book self.new.book run result }
    {
        self.check_composing(source.size(), run)?;
        match self.seek_bid(source, board, run) {
            Some(offer) => {
                self.place(run, offer);
                Ok(offer)
            }
            None => {
                let fault = self.run_fault(Cause::NoFullPlan, run);
                self.mark(run);
                Err(fault)
            }
        }
    }

    // The source has as many runs as the auction, and the run may bid.
    pub(crate) fn check_composing(&self, size: usize, run: usize) -> Result<(), Fault>
        ensures is { MatchResult result (λ _. Passes (composing_checks size self.now.book run)) (λ f. Refuses (composing_checks size self.now.book run) f) }
        ensures ready { OnOk result ((size ≡ size_of self.now) × Ready self.now.book run) }
    {
        self.phase_fault(Cause::Size, None, None)
            .unless(size == self.book.conditions.size)?;
        self.check_compose(run)
    }

    // The bid of a run at the prices that it is shown, over a source of the auction's size.
    pub(crate) fn seek_bid<S: RowSource, B: PriceBoard>(
        &self,
        source: &S,
        board: &B,
        run: usize,
    ) -> Option<Offer>
        requires { (S.PairSource.table source.now).size ≡ size_of self.now }
        ensures limited { OffersIn (S.PairSource.table source.now) self.now.book (limited_to (B.PriceBoard.face board.now) run) run result }
        ensures shown { B.PriceBoard.sound board.now → ToldWithin (B.PriceBoard.face board.now) → OffersIn (S.PairSource.table source.now) self.now.book ((B.PriceBoard.face board.now).shown run) run result }
    {
        let terms = self.terms(S::limit());
        compose_bid(source, board, &terms, run)
    }

    // The terms of the phase, over a source with this top.
    pub(crate) fn terms(&self, top: u32) -> Terms
        requires { top ≤ top_limit }
        ensures { HasTerms (size_of self.now) top (increment_of self.now.book) self.now.book.high result }
    {
        let size = self.book.conditions.size as u16;
        Terms::new(size, top, self.increment(), self.book.high).unwrap()
    }
}
