#![tactic(auto)]
// Sources of points: pair sources, row sources, and the arithmetic of nets.
pub mod limits;
pub mod nets;
pub mod seats;
pub mod sources;
pub mod summaries;
pub mod summarize;
pub mod theorems;
