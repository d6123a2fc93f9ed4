// The command `bid`: a run's first bid over a sheet.
ghost use Rattle.std.specs.Prelude.{◌≡◌};
ghost use Rattle.bidding.specs.Searches.{HasTerms};
ghost use Rattle.commands.specs.FirstBids.{BidsOrNone, FirstBidOf, BidOver};

use crate::first_bid::{BidLine, FirstBid};
use bidding::search::{compose_bid, seek};
use bidding::terms::Terms;
use boards::board::PriceBoard;
use boards::states::CommonBoard;
use fault::causes::Cause;
use fault::faults::Fault;
use fault::layers::Layer;
use points::sources::{PairSource, RowSource};
use sheets::any::AnySheet;

// A run's first bid over a sheet of either kind.
pub fn bid_sheet(bytes: Vec<u8>, run: usize) -> Result<BidLine, Fault>
    ensures { BidOver bytes.items run result }
{
    first_bid(&AnySheet::read(bytes)?, run)
}

// A run's first bid over any source.
pub(crate) fn first_bid<S: RowSource>(source: &S, run: usize) -> Result<BidLine, Fault>
    ensures { FirstBidOf (S.PairSource.table source.now) run result }
{
    let size = source.size();
    Fault::in_phase(Layer::Exchange, Cause::Number, 0, Some(run), None).unless(run < size)?;
    let refused = Fault::in_phase(Layer::Exchange, Cause::Size, 0, None, None);
    let size = u16::try_from(size).map_err(|_| refused)?;
    let terms = Terms::new(size, S::limit(), 1, 0).ok_or(refused)?;
    Ok(BidLine {
        run,
        bid: bid_at_start(source, &terms, run),
    })
}

// A run's bid over any source, on a board to which no price was told.
pub(crate) fn bid_at_start<S: RowSource>(source: &S, terms: &Terms, run: usize) -> Option<FirstBid>
    requires { HasTerms (S.PairSource.table source.now).size (S.PairSource.table source.now).top 1 0 terms.now }
    ensures { BidsOrNone (S.PairSource.table source.now) run result }
{
    let board = CommonBoard::new();
    let offer = compose_bid(source, &board, terms, run)?;
    let best = seek(source, &board, terms, run)?;
    Some(FirstBid {
        run,
        seat: offer.seat,
        net: best.net,
        second: best.second,
        price: offer.price,
    })
}
