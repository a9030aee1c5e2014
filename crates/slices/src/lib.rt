// Slices without a bound to prove, for the plain side of the gate's comparison: a place outside a slice reads as 0, and nothing is written there.
#![tactic(auto)]

mod arrays;
mod numbers;

pub use arrays::{put_array, put_number};
pub use numbers::{at, count_at, down, put, up};
