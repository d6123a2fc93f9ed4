#![tactic(auto)]
// The book of a started auction: its events and their refusals.
pub mod books;
pub mod composing;
pub mod deliveries;
pub mod ledger;
pub mod opening;
pub mod operations;
pub mod questions;
pub mod refusals;
