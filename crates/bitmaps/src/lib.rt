// The documents of a term as a bitmap: a word of 64 bits for each block of 64 documents, which are a node of height 6 of the tree (document 02, M-104).
// In a library of fewer than 64 documents there is one block, and it is the root.
#![tactic(auto)]

mod fill;
mod single;
mod word;

pub use fill::put_bitmap;
