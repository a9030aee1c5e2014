// The weighted search: it begins with the weights and the terms' lengths, and every other score comes through moves.
ghost use Rattle.std.specs.Prelude.{◌≡◌, ◌*◌, ◌≤◌, ◌<◌, min, length};
ghost use Rattle.model.specs.Lists.{Sorted};
ghost use Rattle.model.specs.Outcome.{answered};
ghost use Rattle.model.specs.Opening.{contents};
ghost use Rattle.model.specs.RarestFirst.{rarer};
ghost use Rattle.model.specs.TopK.{found_into};
ghost use Rattle.moves.specs.Moves.{Kept};
ghost use Rattle.moves.specs.Results.{Begun, move_at, RoomFor, Advanced, result_is};
ghost use Rattle.weighted.specs.Grounds.{ground_of, found_in};
ghost use Rattle.weighted.specs.Steps.{Leads};

use crate::asking::Asking;
use crate::step::{half_of, step};
use crate::weigh::weigh;
use moves::{Ended, Progress, ending, goes_on, tell};
use paths::{Node, Query};
use search::clear;

// How far the search is, and where the path leads.
#[derive(Clone, Copy)]
pub struct Onward {
    pub progress: Progress,
    pub at: Node,
}

// The root waits first, unless no term has an entry; answers how many nodes wait.
fn begin(asking: &Asking<'_, '_>, path: &[u32], work: &mut [u32]) -> usize
    requires leads { Leads asking.now.query path.now (record { level = 0; number = 0 }) × (4 ≤ length work.old) }
    ensures { Begun (ground_of asking.now.query) work.old work.new result }
{
    let root = half_of(asking, 0, 0, 0, path);
    if !root.lives {
        return 0;
    }
    frontier::push(work, 0, root.waits);
    1
}

// A move, and what it says: a document goes into the answer slice, an opening is counted.
fn advance(
    asking: &Asking<'_, '_>,
    allowance: u32,
    p: Progress,
    at: Node,
    path: &mut [u32],
    answers: &mut [u32],
    work: &mut [u32],
) -> Onward
    requires leads { Leads asking.now.query path.old at }
    requires waiting_nonzero { (0 < p.waiting) × Kept (ground_of asking.now.query) work.old p.waiting × (p.openings ≤ allowance) }
    requires room_for { RoomFor (move_at (ground_of asking.now.query) allowance p work.old).move p.listed answers.old }
    ensures advanced { Advanced (ground_of asking.now.query) allowance p answers.old work.old
        result.progress answers.new work.new }
    ensures leads_2 { Leads asking.now.query path.new result.at }
{
    let left = allowance - p.openings;
    let stepped = step(asking, at, path, work, p.waiting, left);
    let moved = stepped.moved;
    let at = stepped.at;
    let progress = tell(moved, p, answers);
    Onward { progress, at }
}

// Weighted top-k of some terms, the rarest first, by which scores are added up: the answer is the one read off the moves; the pairs in the answer slice, and the first 4 * N numbers of the work slice 0.
pub fn weighted_in(
    query: &Query<'_, '_>,
    k: u32,
    allowance: u32,
    answers: &mut [u32],
    work: &mut [u32],
) -> Ended
    requires { (2 * min k query.now.archive.layout.documents ≤ length answers.old) × (4 * query.now.archive.layout.documents ≤ length work.old)
        × Sorted (rarer (contents query.now.archive.bytes.now)) query.now.terms.now }
    ensures { result_is result answers.new work.new
        ≡ found_into answers.old work.old (answered (found_in query.now k allowance)) }
{
    let weights = weigh(query);
    let asking = Asking {
        query: *query,
        weights,
    };
    let mut path = [0u32; 468];
    query.put_root(&mut path);
    let mut p = Progress {
        waiting: begin(&asking, &path, work),
        listed: 0,
        openings: 0,
        spent: false,
    };
    let mut at = Node {
        level: 0,
        number: 0,
    };
    // move by move, as long as the search is not done: no index is counted
    while goes_on(p, k) {
        let next = advance(&asking, allowance, p, at, &mut path, answers, work);
        let progress = next.progress;
        let onward = next.at;
        p = progress;
        at = onward;
    }
    clear(work, 4 * query.archive.layout.documents);
    ending(p)
}
