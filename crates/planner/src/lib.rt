// The planner: shortest routes, and each pair in the lowest lane that stays without a cycle.
#![tactic(auto)]

mod choice;
mod dependencies;
mod draft;
pub mod fault;
mod filing;
mod judging;
mod planning;
mod rows;

pub use fault::TopologyFault;
pub use planning::plan;

#[cfg(test)]
mod tests;
