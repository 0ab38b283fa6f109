// How long a packet may have to wait.
#![tactic(auto)]

mod holds;
pub mod patience;
mod routes;

pub use patience::patience_of;

#[cfg(test)]
mod tests;
