// A fabric: switches, and the channels that join them.
#![tactic(auto)]

pub mod channel;
pub mod fault;
pub mod grid;
pub mod lane_count;
pub mod network;
pub mod pair;
pub mod pairs;
pub mod position;

pub use channel::Channel;
pub use fault::{CallFault, FabricFault};
pub use grid::grid_size;
pub use lane_count::LaneCount;
pub use network::Fabric;
pub use pair::Pair;
pub use pairs::Pairs;
pub use position::Position;

#[cfg(test)]
mod tests;
