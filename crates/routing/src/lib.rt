// Route rules: what answers by which channel and in which lane a packet goes on.
#![tactic(auto)]

pub mod dependencies;
pub mod fault;
pub mod grid;
pub mod route;
pub mod rows;
pub mod rule;
pub mod table;
pub mod walk;

pub use dependencies::Dependencies;
pub use fault::RuleFault;
pub use grid::Grid;
pub use route::{Route, Step, Steps};
pub use rows::Rows;
pub use rule::RouteRule;
pub use table::Table;
pub use walk::{Ending, Hop, judge_route, next_hop, route_ending};

#[cfg(test)]
mod tests;
