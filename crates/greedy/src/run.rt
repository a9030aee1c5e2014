// The greedy search: it begins with the size of the range, and every other count comes through moves.
ghost use Rattle.std.specs.Prelude.{◌≡◌, ◌*◌, ◌≤◌, ◌<◌, min, length};
ghost use Rattle.model.specs.Outcome.{answered};
ghost use Rattle.model.specs.TopK.{found_into};
ghost use Rattle.moves.specs.Moves.{Kept};
ghost use Rattle.moves.specs.Results.{Begun, move_at, RoomFor, Advanced, result_is};
ghost use Rattle.greedy.specs.Grounds.{ground_of, found_in};

use crate::node::Node;
use crate::step::step;
use moves::{Ended, Progress, ending, goes_on, tell};
use search::{Search, finish};
use wavelet::Span;

// The root waits first, unless the range is empty; answers how many nodes wait.
fn begin(s: &Search<'_>, work: &mut [u32]) -> usize
    requires documents_in_bounds { 4 * s.now.documents ≤ length work.old }
    ensures { Begun (ground_of s.now) work.old work.new result }
{
    let a = s.a;
    let b = s.b;
    if a == b {
        return 0;
    }
    let root = Node {
        start: 0,
        depth: 0,
        span: Span {
            start: 0,
            lo: a,
            hi: b,
            end: s.tree.levels.entries,
        },
    };
    frontier::push(work, 0, root.record());
    1
}

// A move, and what it says: a document goes into the answer slice, an opening is counted.
fn advance(
    s: &Search<'_>,
    allowance: u32,
    p: Progress,
    answers: &mut [u32],
    work: &mut [u32],
) -> Progress
    requires waiting_nonzero { (0 < p.waiting) × Kept (ground_of s.now) work.old p.waiting × (p.openings ≤ allowance) }
    requires room_for { RoomFor (move_at (ground_of s.now) allowance p work.old).move p.listed answers.old }
    ensures { Advanced (ground_of s.now) allowance p answers.old work.old result answers.new work.new }
{
    let moved = step(s, work, p.waiting, allowance - p.openings);
    tell(moved, p, answers)
}

// Greedy top-k of a range: the answer is the one read off the moves; the pairs in the answer slice, and the first 4 * N numbers of the work slice 0.
pub fn greedy(
    s: &Search<'_>,
    k: u32,
    allowance: u32,
    answers: &mut [u32],
    work: &mut [u32],
) -> Ended
    requires documents_in_bounds { (2 * min k s.now.documents ≤ length answers.old) × (4 * s.now.documents ≤ length work.old) }
    ensures { result_is result answers.new work.new
        ≡ found_into answers.old work.old (answered (found_in s.now k allowance)) }
{
    let mut p = Progress {
        waiting: begin(s, work),
        listed: 0,
        openings: 0,
        spent: false,
    };
    // move by move, as long as the search is not done: no index is counted
    while goes_on(p, k) {
        p = advance(s, allowance, p, answers, work);
    }
    finish(s.documents, work);
    ending(p)
}
