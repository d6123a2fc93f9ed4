// Theorems on the auction.
ghost use Rattle.auction.specs.Laws.{AuctionStands};

// The laws of the auction hold of every market that is reached.
pub fn auction_stands()
    ensures { AuctionStands }
{}
