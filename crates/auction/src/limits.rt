// The limits of an auction.

// The most phases that a ladder has.
pub const PHASE_LIMIT: usize = 16;

// The greatest first increment, in scaled points.
pub const INCREMENT_LIMIT: u64 = 1_000_000_000;

// The greatest allowance, in bids.
pub const ALLOWANCE_LIMIT: u64 = 1_000_000_000_000;
