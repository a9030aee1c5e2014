// One question of each kind, drawn from a seed, the places of a document in turn, every pattern of terms among three, every short sequence of words and
// marks, and every rate of a small size, through the code and beside the plain side's answer; differences are printed and counted.
#![tactic(auto)]

pub mod answered;
pub mod booleans;
pub mod differences;
mod edits;
mod expressions;
pub mod library;
pub mod lists;
pub mod numbers;
pub mod orders;
pub mod patterns;
pub mod places;
pub mod random;
pub mod rates;
pub mod searches;
pub mod sequences;
pub mod sets;
