// What a term weighs: by how many different documents it has. Document 02, M-100.
#![tactic(auto)]

mod distinct;
mod last;
mod weight;

pub use distinct::distinct_in;
pub use weight::weight_of;
