// Listing: the documents of a range with their counts and first places. A name that ends in `_opened` is the question of an archive that was opened
// before; one that ends in `_in` is that without the refusals.
#![tactic(auto)]

mod lists;
mod pass;
mod places;

pub use lists::{list, list_in, list_opened, list_terms, list_terms_opened};
