// The check of a route rule over a fabric: every pair arrives, in a lane below the lane count, and the channels of no lane wait for
// each other in a circle.
#![tactic(auto)]

pub mod lane;
mod pairs;
mod setup;
pub mod verdict;

pub use lane::noting::dependencies;
pub use routing::Dependencies;
pub use verdict::{Accepted, check, showing};

#[cfg(test)]
mod tests;
