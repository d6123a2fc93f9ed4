#![tactic(auto)]
// The search for a run's bid, over every row source and every price board.
pub mod claims;
pub mod depths;
pub mod search;
pub mod sought;
pub mod terms;
