// Ranges of an opened archive: where its terms start, the entries a up to but without b, and the terms f to l.
#![tactic(auto)]

mod ranges;
mod terms;

pub use ranges::{entry_range, term_range};
pub use terms::term_start;

// A range: the entries from one place up to but without another.
#[derive(Clone, Copy, Debug, PartialEq, Eq)]
pub struct Entries {
    pub from: u32,
    pub to: u32,
}
