// Questions with and, or, not, with their refusals (document 02, M-104). A name that ends in `_opened` is the question of an archive that was opened
// before; one that ends in `_in` is that without the refusals.
#![tactic(auto)]

mod blocks;
mod documents;
mod question;
mod words;

pub use question::{boolean, boolean_in, boolean_opened};
