// The path of a search with several terms, from node to node of the tree.
#![tactic(auto)]

mod path;
mod query;
mod terms;
mod walk;

pub use path::frame_of;
pub use query::{Query, ask, term_missing};
pub use terms::{TermList, Terms};

// A node of the tree: its level, and its number there.
#[derive(Clone, Copy)]
pub struct Node {
    pub level: usize,
    pub number: usize,
}
