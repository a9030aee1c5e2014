// The archive: its layout and the check on opening.
#![tactic(auto)]

use wavelet::Levels;

mod check;
mod handle;
mod offsets;
mod rows;

pub use check::open;
pub use handle::{Archive, reopen};
pub use offsets::{archive_length, layout_of, within_limits};

// The layout of an archive: N, W, and where its levels lie, n and h with them.
#[derive(Clone, Copy)]
pub struct Layout {
    pub documents: usize,
    pub terms: usize,
    pub levels: Levels,
}
