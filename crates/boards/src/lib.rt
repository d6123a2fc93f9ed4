#![tactic(auto)]
// Price boards: what one means, the common board, the site board, and the delay layer over any board.
pub mod board;
pub mod clients;
pub mod common;
pub mod copies;
pub mod delay;
pub(crate) mod lists;
pub mod rows;
pub mod site;
pub mod spans;
pub mod states;
pub mod tellings;
pub mod theorems;
