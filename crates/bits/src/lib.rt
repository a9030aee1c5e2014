// Bits and numbers of 32 bits in bytes, and how many ones stand where, counted by words. What it rests on stands here once for all crates above:
// rank and select over a sequence (`specs/Sequences`), and a row of bits with its samples (`specs/Bits`, `specs/Rows`).
#![tactic(auto)]

mod count;
mod numbers;
mod row;

pub use count::{bit, of_kind, ones_before, ones_in, tail_ones, word_ones};
pub use numbers::{number, put_number, word};
pub use row::Row;
