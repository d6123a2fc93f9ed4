// Theorems on the search for a bid.
ghost use Rattle.bidding.specs.Depths.{FloorsAgree};
ghost use Rattle.bidding.specs.Searches.{LimitChangesNothing};

// The floor by the numbers of a phase is the floor of the market.
pub fn floors_agree()
    ensures { FloorsAgree }
{}

// Where no told price is over the limit, prices are taken as they are shown.
pub fn limit_changes_nothing()
    ensures { LimitChangesNothing }
{}
