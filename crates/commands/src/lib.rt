#![tactic(auto)]
// What the program's commands do, on bytes and any source: its lines and its answers.
pub mod bids;
pub mod calls;
pub mod first_bid;
pub mod lines;
