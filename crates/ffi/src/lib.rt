// How questions and answers pass to other languages: 0 with values in out-parameters, or the number of the refusal; terms from a slice.
#![tactic(auto)]

pub mod give;
mod terms;

pub use terms::terms_of;
