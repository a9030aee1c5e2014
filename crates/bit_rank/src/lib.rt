// Rank in a row of bits by its samples, a part of `bit_rows`.
#![tactic(auto)]

mod counts;
mod known;

pub use counts::{rank, rank1};
pub use known::{ones_between, rank1_from};
