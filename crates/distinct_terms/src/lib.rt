// Each different term of a question once, in front of the conjunction and the weighted search. Document 02, M-101.
#![tactic(auto)]

mod once;

pub use once::distinct;
