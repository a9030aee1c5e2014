// The plain side of `compare`: the archive's bytes and every answer by counting over the list. It shares nothing with the code that it is held against,
// and is proved safe, not right.
#![tactic(auto)]

pub mod archive;
pub mod boolean;
pub mod marks;
pub mod numbers;
pub mod orders;
pub mod outcome;
pub mod pairs;
mod postfix;
pub mod rate;
mod reading;
pub mod search;
pub mod sets;
pub mod weighted;
