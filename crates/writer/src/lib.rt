// From a list of entries to the bytes of its archive: the writer.
#![tactic(auto)]

mod libraries;
mod put;
mod rows;

pub use libraries::write;
