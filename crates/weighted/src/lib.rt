// Weighted top-k: the documents with an entry under some of the terms, by the sum of weight * count. Document 02, M-100 and M-101.
// A name that ends in `_opened` is the question of an archive that was opened before; one that ends in `_in` is that without the
// refusals, of different terms.
#![tactic(auto)]

mod asking;
mod question;
mod run;
mod score;
pub mod step;
mod weigh;

pub use asking::Asking;
pub use question::{weighted, weighted_opened};
pub use run::weighted_in;
