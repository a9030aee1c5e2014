// The first places of the documents that a search lists, beside their counts (document 02, M-108).
#![tactic(auto)]

mod spread;

pub use spread::put_first_places;
