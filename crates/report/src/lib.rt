// The report of the program `shortlist`: the bytes that it writes, from the bytes that it reads.
#![tactic(auto)]

mod input;
mod program;
mod text;

pub use input::read_full;
pub use program::{shortlist, whole};
