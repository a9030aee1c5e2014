// The pairs, with or without a place, that questions write into a lent slice.
#![tactic(auto)]

mod pairs;
mod places;

pub use pairs::put_pair;
pub use places::put_placed;
