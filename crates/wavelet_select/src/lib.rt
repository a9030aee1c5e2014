// Select in a wavelet tree, of the whole list and of a range: down by the bits of a document to its leaf, and up by the places of bits.
#![tactic(auto)]

mod ascent;
mod first;
mod level;

pub use ascent::select;
pub use first::first_in;
