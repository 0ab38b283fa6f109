// A run: packets under way on a fabric, from slot to slot.
#![tactic(auto)]

mod board;
mod by_lane;
pub mod packet;
mod place;
pub mod run;
mod setup;
mod site;
pub mod words;

pub use packet::Packet;
pub use run::Run;
pub use words::{Answer, Call, Outcome, Request};

#[cfg(test)]
mod tests;
