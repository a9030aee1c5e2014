// Greedy top-k, move by move: the first documents of the ranking of a range, under an allowance of openings.
#![tactic(auto)]

mod node;
mod run;
pub mod step;

pub use run::greedy;
