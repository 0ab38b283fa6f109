pub(crate) mod cycle;
pub mod noting;
pub(crate) mod order;

pub use routing::Dependencies;
