// Levels of rows as a wavelet tree. Counts and places of bits come from bit_rows' contracts alone.
#![tactic(auto)]

mod descent;
mod halving;
mod level;
mod range;
mod tree;

pub use tree::Tree;

// Where the levels of a tree lie in a byte slice: how many entries, how many rows, and the offsets of the first samples and of the first row.
#[derive(Clone, Copy, Debug, PartialEq, Eq)]
pub struct Levels {
    pub entries: usize,
    pub height: usize,
    pub samples: usize,
    pub rows: usize,
}

// A node's bounds in its level, and the two places of a range in it.
// That they are in order is a clause of each function (Ordered) and no ghost field: it needs the level's length, which would be copied with each half.
#[derive(Clone, Copy, Debug, PartialEq, Eq)]
pub struct Span {
    pub start: usize,
    pub lo: usize,
    pub hi: usize,
    pub end: usize,
}

// A place of a node, mapped to its two halves: how many zeros and how many ones of the node are before it.
#[derive(Clone, Copy, Debug, PartialEq, Eq)]
pub struct Mapped {
    pub zeros: usize,
    pub ones: usize,
}

// The halves of a node: the zero half, of the entries whose next bit is 0, and the one half, of those whose next bit is 1.
#[derive(Clone, Copy, Debug, PartialEq, Eq)]
pub struct Halves {
    pub zero: Span,
    pub one: Span,
}

// The halves of a node, and the ones of its level before its end.
#[derive(Clone, Copy, Debug, PartialEq, Eq)]
pub struct Known {
    pub two: Halves,
    pub after: usize,
}

// A node's bounds in its level, the ones before it, and where its halves meet.
#[derive(Clone, Copy, Debug, PartialEq, Eq)]
pub struct Ranked {
    pub start: usize,
    pub end: usize,
    pub before: usize,
    pub middle: usize,
}

// A node's bounds in its level, and one place in it.
#[derive(Clone, Copy, Debug, PartialEq, Eq)]
pub struct Place {
    pub start: usize,
    pub at: usize,
    pub end: usize,
}

// A document of a range, and how often it occurs there.
#[derive(Clone, Copy, Debug, PartialEq, Eq)]
pub struct Counted {
    pub document: usize,
    pub count: usize,
}
