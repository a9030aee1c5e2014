// The operations under C names, for programs in other languages: bindings/c/masuvelior.h documents each. The answer is 0 or the number of the refusal;
// out-parameters are written only where it is 0.
#![tactic(auto)]

mod archives;
mod boolean_questions;
mod conjunctions;
mod entries;
mod orders;
mod ranges;
mod searches;
mod sets;
mod weighted_searches;
