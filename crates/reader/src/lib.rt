// From the bytes of an archive back to its list of entries: the reader.
#![tactic(auto)]

mod lists;
mod rows;

pub use lists::{read, read_in, read_opened};

// What is read beside the two lists: n, N and W.
#[derive(Clone, Copy)]
pub struct Sizes {
    pub entries: usize,
    pub documents: usize,
    pub terms: usize,
}
