// Top-k: the first documents of the ranking of a range, by the greedy search and by probing, each question with its refusals.
#![tactic(auto)]

mod operations;
mod question;

pub use operations::{
    greedy_entries, greedy_entries_opened, greedy_terms, greedy_terms_opened, probing_entries,
    probing_entries_opened, probing_terms, probing_terms_opened,
};
