// The question for the documents under each of several terms, with its refusals. A name that ends in `_opened` is the question of an archive that
// was opened before; one that ends in `_in` is that without the refusals, of different terms.
#![tactic(auto)]

mod common;
mod conjunctions;

pub use conjunctions::{conjunction, conjunction_in, conjunction_opened};
pub use paths::Terms;
