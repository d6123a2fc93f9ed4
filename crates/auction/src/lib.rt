#![tactic(auto)]
// The auction's laws over every run of events, and its limits.
pub mod limits;
pub mod theorems;
