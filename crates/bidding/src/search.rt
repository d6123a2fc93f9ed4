// The search for a run's bid, over every row source and every price board.
ghost use Rattle.std.specs.Prelude.{◌≡◌, ◌≢◌, None};
ghost use Rattle.bidding.specs.Searches.{terms_floor, limited_to, ToldWithin, valued, weighed, Seeks, SeeksAt, priced, offered, OffersAt, BidsAt};

use crate::sought::{Offer, Sought};
use crate::terms::Terms;
use boards::board::PriceBoard;
use points::nets::{net_points, scaled_points};
use points::sources::{PairSource, RowSource};

// The search for a run's best seat over a source and a board, by the size and the floor of a phase.
#[derive(Drop)]
pub(crate) struct Search<'a, S: RowSource, B: PriceBoard> {
    source: &'a S,
    board: &'a B,
    run: usize,
    size: u16,
    floor: i64,
    ghost sized: { size ≡ (S.PairSource.table source.now).size },
}

// The bid of a run at the prices that it is shown, or nothing where it is hopeless.
pub fn compose_bid<S: RowSource, B: PriceBoard>(
    source: &S,
    board: &B,
    terms: &Terms,
    run: usize,
) -> Option<Offer>
    ensures limited { BidsAt (S.PairSource.table source.now) terms.now (limited_to (B.PriceBoard.face board.now) run) run result }
    ensures shown { B.PriceBoard.sound board.now → ToldWithin (B.PriceBoard.face board.now) → BidsAt (S.PairSource.table source.now) terms.now ((B.PriceBoard.face board.now).shown run) run result }
    ensures terms { OffersAt (S.PairSource.table source.now) terms.now (limited_to (B.PriceBoard.face board.now) run) run result }
    ensures other { terms.now.size ≢ (S.PairSource.table source.now).size → result ≡ None }
{
    offer(terms, seek(source, board, terms, run))
}

// The best seat of a run at the prices that it is shown, or nothing where no seat is allowed to it.
// Terms of another size than the source's find nothing.
pub fn seek<S: RowSource, B: PriceBoard>(
    source: &S,
    board: &B,
    terms: &Terms,
    run: usize,
) -> Option<Sought>
    ensures limited { SeeksAt (S.PairSource.table source.now) terms.now (limited_to (B.PriceBoard.face board.now) run) run result }
    ensures shown { B.PriceBoard.sound board.now → ToldWithin (B.PriceBoard.face board.now) → SeeksAt (S.PairSource.table source.now) terms.now ((B.PriceBoard.face board.now).shown run) run result }
    ensures other { terms.now.size ≢ (S.PairSource.table source.now).size → result ≡ None }
{
    if usize::from(terms.size) != source.size() {
        return None;
    }
    let search = Search {
        source,
        board,
        run,
        size: terms.size,
        floor: terms.floor(),
    };
    search.find()
}

// What is offered on what a search found: nothing where that nets less than the floor.
pub fn offer(terms: &Terms, found: Option<Sought>) -> Option<Offer>
    ensures { result ≡ offered (terms_floor terms.now) terms.now.increment found }
{
    let best = found?;
    if best.net < terms.floor() {
        return None;
    }
    Some(Offer {
        seat: best.seat,
        price: bid_price(best.worth, best.second, terms.increment),
    })
}

impl<S: RowSource, B: PriceBoard> Search<'_, S, B> {
    // The best of the run's allowed seats, which are weighed from the lowest on.
    pub(crate) fn find(&self) -> Option<Sought>
        ensures limited { Seeks (S.PairSource.table self.now.source.now) self.now.floor (limited_to (B.PriceBoard.face self.now.board.now) self.now.run) self.now.run result }
        ensures shown { B.PriceBoard.sound self.now.board.now → ToldWithin (B.PriceBoard.face self.now.board.now) → Seeks (S.PairSource.table self.now.source.now) self.now.floor ((B.PriceBoard.face self.now.board.now).shown self.now.run) self.now.run result }
    {
        let mut seats = self.source.seats(self.run);
        let first = self.value(seats.next()?)?;
        // not `reduce`, which asks for the next seat at two places: over a sparse sheet with it a third more instructions are run
        Some(seats.filter_map(|seat| self.value(seat)).fold(first, weigh))
    }

    // A seat as a find of its own, if it is allowed. (Two places need it; where it is called, and not written out at each, a
    // search over a sparse sheet takes a quarter more instructions.)
    #[inline(always)]
    pub(crate) fn value(&self, seat: usize) -> Option<Sought>
        ensures { result ≡ valued self.now.size self.now.floor (limited_to (B.PriceBoard.face self.now.board.now) self.now.run) seat ((S.PairSource.table self.now.source.now).points self.now.run seat) }
    {
        let points = self.source.points(self.run, seat)?;
        Some(Sought {
            seat,
            worth: scaled_points(self.size, points),
            net: net_points(self.size, points, self.board.shows(self.run, seat)),
            second: self.floor,
        })
    }
}

// A seat put beside what was found below it: it is better only where it nets more.
pub(crate) fn weigh(old: Sought, new: Sought) -> Sought
    ensures { result ≡ weighed old new }
{
    if old.net < new.net {
        Sought {
            second: old.second.max(old.net),
            ..new
        }
    } else {
        Sought {
            second: old.second.max(new.net),
            ..old
        }
    }
}

// The price of a bid: one increment more than leaves the run its second value.
pub(crate) fn bid_price(worth: i64, second: i64, increment: u64) -> u64
    ensures { result ≡ priced worth second increment }
{
    worth.abs_diff(second).saturating_add(increment)
}
