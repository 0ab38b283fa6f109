// The plan file: a fabric, a lane count and a stored table in a few thousand bytes.
#![tactic(auto)]

mod bodies;
pub mod contents;
pub mod entry;
pub mod fault;
mod judge;
mod links;
pub mod part;
pub mod plan;
pub mod writer;

pub use contents::{Contents, contents_of};
pub use entry::Entry;
pub use fault::FileFault;
pub use part::Part;
pub use plan::Plan;
pub use plan::decode::decode;
pub use plan::round::{recode, write_and_decode};
pub use writer::write;

#[cfg(test)]
mod tests;
