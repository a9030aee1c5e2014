// Top-k by probing: the first documents of the ranking of a range, found at ranks of the sorted range.
#![tactic(auto)]

mod candidates;
mod rounds;
mod run;

pub use run::probing;
