// One row of bits in a lent byte slice, with its rank samples: a row is n bits in the first (n + 7) / 8 bytes of a slice, its samples
// (n + 511) / 512 numbers of 32 bits in another. A product of its own: what it offers is all here, from the parts `bits`, `bit_rank` and `bit_select`.
//
// Select counts from 1 and answers a place: n, one past the end, exactly where the row has fewer than j such bits (document 002, section 2; M-102).
// Number 0 is answered as n too, and an empty row ends at 0. A walk over the places ends at n.
#![tactic(auto)]

mod blocks;
mod check;
mod write;

pub use bit_rank::{ones_between, rank, rank1, rank1_from};
pub use bit_select::{select, select_near};
pub use bits::{Row, bit, number, ones_before, put_number};
pub use check::{samples_right, unused_clear};
pub use write::{fill_samples, put_bit};
