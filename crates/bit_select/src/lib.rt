// Select in a row of bits by its samples, a part of `bit_rows`.
#![tactic(auto)]

mod places;

pub use places::{select, select_near};
