#![tactic(auto)]
// Tests of sheets: damaged sheets against a reading of their own.
pub mod readings;
#[cfg(test)]
mod tests;
