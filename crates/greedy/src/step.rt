// The move of the greedy search, on the first of the waiting nodes.
// That the heap is kept stands in three contracts: a ghost field over the work slice would not hold between a write to the heap and the new count.
ghost use Rattle.std.specs.Prelude.{◌≡◌, ◌%◌, ◌<◌};
ghost use Rattle.moves.specs.Moves.{Kept, Moves, First, frontier_in, next_move, once_opened, moved_is};
ghost use Rattle.greedy.specs.Grounds.{ground_of};

use crate::node::{Node, halves};
use frontier::Record;
use moves::{Move, Moved};
use search::Search;

// Opens the first of the waiting nodes, r, which is no leaf: its zero half is tried, then its one half. A half waits unless none of the range's entries are in it.
fn open(s: &Search<'_>, work: &mut [u32], waiting: usize, r: Record) -> usize
    requires kept { Kept (ground_of s.now) work.old waiting }
    requires first { First work.old waiting r }
    requires second_bound { r.second % 16 < s.now.tree.levels.height }
    ensures { Moves (ground_of s.now) work.old (once_opened (ground_of s.now) work.old waiting) work.new result }
{
    let (zero, one) = halves(&s.tree, r);
    if zero.first == 0 {
        frontier::replace_top(work, waiting, one);
        return waiting;
    }
    if one.first == 0 {
        frontier::replace_top(work, waiting, zero);
        return waiting;
    }
    frontier::open_top(work, waiting, one, zero);
    waiting + 1
}

// The move, with the allowance that is left. A leaf is named whatever is left.
pub fn step(s: &Search<'_>, work: &mut [u32], waiting: usize, left: u32) -> Moved
    requires waiting_nonzero { (0 < waiting) × Kept (ground_of s.now) work.old waiting }
    ensures work_after { moved_is (ground_of s.now) result work.new ≡ next_move (ground_of s.now) left (frontier_in (ground_of s.now) work.old waiting) }
    ensures moves { Moves (ground_of s.now) work.old (frontier_in (ground_of s.now) work.new result.waiting) work.new result.waiting }
{
    let r = frontier::top(work, waiting);
    let Node { start, depth, .. } = Node::from(r);
    let depth = depth as usize;
    let levels = s.tree.levels;
    if depth == levels.height {
        frontier::pop(work, waiting);
        return Moved {
            made: Move::Names {
                document: start,
                count: r.first,
            },
            waiting: waiting - 1,
        };
    }
    if left == 0 {
        return Moved {
            made: Move::Spent,
            waiting,
        };
    }
    let height = (levels.height - depth) as u32;
    let n = open(s, work, waiting, r);
    Moved {
        made: Move::Opens { start, height },
        waiting: n,
    }
}
