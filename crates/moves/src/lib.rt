// What searches by moves have in common: the moves, how far a search is, and how it ends. The laws are over any count of nodes, and any test for
// the nodes that live.
#![tactic(auto)]

mod progress;

pub use progress::{Progress, ending, goes_on, listed, tell};

// Each move of the search names a document with its count, opens a node, or finds its allowance spent.
#[derive(Clone, Copy)]
pub enum Move {
    Names { document: u32, count: u32 },
    Opens { start: u32, height: u32 },
    Spent,
}

// A move, and how many nodes wait after it.
#[derive(Clone, Copy)]
pub struct Moved {
    pub made: Move,
    pub waiting: usize,
}

// How a search ended: so many documents listed, and the openings needed or the allowance.
#[derive(Clone, Copy)]
pub enum Ended {
    Done { listed: u32, openings: u32 },
    Spent { listed: u32, allowance: u32 },
}
