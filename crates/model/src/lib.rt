// The reference definitions that every contract cites, and the laws over them.
// Each function here does nothing: its contract is a theorem.
#![tactic(auto)]

pub mod cabling;
pub mod examples;
pub mod laws;
pub mod plans;
pub mod promise;
