// The rarest term first: each different term of a question once, in the order in which a weighted score is added up. Document 02, M-107.
#![tactic(auto)]

mod order;
mod question;

pub use order::rarest_first_in;
pub use question::{rarest_first, rarest_first_opened};
