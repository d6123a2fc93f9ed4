#![tactic(auto)]
// The checker: whether a certificate proves its plan best.
pub mod checker;
mod contents;
mod plans;
mod prices;
