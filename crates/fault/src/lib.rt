#![tactic(auto)]
// Refusals: the causes with their numbers, the layers, and the fault that passes up whole.
pub mod causes;
pub mod faults;
pub mod layers;
pub mod theorems;
