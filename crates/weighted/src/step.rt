// The move of the weighted search, on the first of the waiting nodes. Its record has no room for the places of the terms: the path finds them again.
ghost use Rattle.std.specs.Prelude.{◌≡◌, ◌+◌, ◌-◌, ◌*◌, ◌%◌, ◌^◌, ◌≤◌, ◌<◌, length};
ghost use Rattle.model.specs.TopK.{node};
ghost use Rattle.paths.specs.Paths.{Whole};
ghost use Rattle.paths.specs.Query.{size, passes};
ghost use Rattle.moves.specs.Moves.{Kept, First, Moves, frontier_in, next_move, once_opened, moved_is};
ghost use Rattle.weighted.specs.Grounds.{ground_of};
ghost use Rattle.weighted.specs.Steps.{Leads, HalfIs, HalvesAre, below};

use crate::asking::Asking;
use crate::score::score_of;
use frontier::Record;
use moves::{Move, Moved};
use paths::{Node, frame_of};

// A half of a node as it waits, and whether it lives. No Option: `half_of` promises the record of a half that does not live, too.
#[derive(Clone, Copy)]
pub struct Half {
    pub waits: Record,
    pub lives: bool,
}

// The zero half and the one half of a node.
#[derive(Clone, Copy)]
pub struct Two {
    pub zero: Half,
    pub one: Half,
}

// A half, by its frame.
pub fn half_of(
    asking: &Asking<'_, '_>,
    level: usize,
    number: usize,
    start: usize,
    path: &[u32],
) -> Half
    requires path_len { (length path.now ≡ 468) × (level ≤ asking.now.query.archive.layout.levels.height) × (level ≤ 12) × (start < 4096)
        × (start ≡ number * 2 ^ (asking.now.query.archive.layout.levels.height - level)) × Whole (passes asking.now.query) (size asking.now.query) path.now level number }
    ensures { HalfIs asking.now.query (node (asking.now.query.archive.layout.levels.height - level) number) result }
{
    let size = asking.query.terms.len();
    let s = score_of(path, frame_of(level, number), asking.weights, size);
    Half {
        waits: Record {
            first: s.score as u32,
            second: (start * 16 + level) as u32,
            third: 0,
            fourth: 0,
        },
        lives: 0 < s.entries,
    }
}

// The halves of the node of a level with the given start. The path leads from the node `at` to its zero half.
fn halves(
    asking: &Asking<'_, '_>,
    at: Node,
    level: usize,
    number: usize,
    start: usize,
    path: &mut [u32],
) -> Two
    requires leads { Leads asking.now.query path.old at }
    requires level_lt_height { (level < asking.now.query.archive.layout.levels.height) × (number < 2 ^ level) × (start ≡ number * 2 ^ (asking.now.query.archive.layout.levels.height - level)) }
    ensures halves_are { HalvesAre asking.now.query level number result }
    ensures leads_2 { Leads asking.now.query path.new (record { level = level + 1; number = 2 * number }) }
{
    let deeper = level + 1;
    let to = Node {
        level: deeper,
        number: 2 * number,
    };
    asking.query.go_to(at, to, path);
    let width = asking.query.archive.layout.levels.height - deeper;
    let zero = half_of(asking, deeper, 2 * number, start, path);
    let next = start + (1 << width);
    let one = half_of(asking, deeper, 2 * number + 1, next, path);
    Two { zero, one }
}

// Opens the first of the waiting nodes, r, which is no leaf: its zero half is tried, then its one half. A half waits unless it has no entry.
// Answers how many nodes wait then.
fn open(
    asking: &Asking<'_, '_>,
    at: Node,
    r: Record,
    path: &mut [u32],
    work: &mut [u32],
    waiting: usize,
) -> usize
    requires leads { Leads asking.now.query path.old at }
    requires kept { Kept (ground_of asking.now.query) work.old waiting }
    requires first { First work.old waiting r × (r.second % 16 < asking.now.query.archive.layout.levels.height) }
    ensures moves { Moves (ground_of asking.now.query) work.old
        (once_opened (ground_of asking.now.query) work.old waiting) work.new result }
    ensures leads_2 { Leads asking.now.query path.new (below asking.now.query.archive.layout.levels.height r) }
{
    let start = (r.second / 16) as usize;
    let depth = (r.second % 16) as usize;
    let number = start >> (asking.query.archive.layout.levels.height - depth);
    let two = halves(asking, at, depth, number, start, path);
    let zero = two.zero;
    let one = two.one;
    let first = zero.waits;
    let second = one.waits;
    if !zero.lives {
        frontier::replace_top(work, waiting, second);
        return waiting;
    }
    if !one.lives {
        frontier::replace_top(work, waiting, first);
        return waiting;
    }
    frontier::open_top(work, waiting, second, first);
    waiting + 1
}

// A move that was made, how many nodes wait after it, and where the path leads.
#[derive(Clone, Copy)]
pub struct Stepped {
    pub moved: Moved,
    pub at: Node,
}

// The move, with the allowance that is left. A leaf is named whatever is left.
pub fn step(
    asking: &Asking<'_, '_>,
    at: Node,
    path: &mut [u32],
    work: &mut [u32],
    waiting: usize,
    left: u32,
) -> Stepped
    requires leads { Leads asking.now.query path.old at }
    requires waiting_nonzero { (0 < waiting) × Kept (ground_of asking.now.query) work.old waiting }
    ensures work_after { moved_is (ground_of asking.now.query) result.moved work.new
        ≡ next_move (ground_of asking.now.query) left (frontier_in (ground_of asking.now.query) work.old waiting) }
    ensures moves { Moves (ground_of asking.now.query) work.old
        (frontier_in (ground_of asking.now.query) work.new result.moved.waiting) work.new result.moved.waiting }
    ensures leads_2 { Leads asking.now.query path.new result.at }
{
    let r = frontier::top(work, waiting);
    let start = r.second / 16;
    let depth = (r.second % 16) as usize;
    let height = asking.query.archive.layout.levels.height;
    if depth == height {
        frontier::pop(work, waiting);
        return Stepped {
            moved: Moved {
                made: Move::Names {
                    document: start,
                    count: r.first,
                },
                waiting: waiting - 1,
            },
            at,
        };
    }
    if left == 0 {
        return Stepped {
            moved: Moved {
                made: Move::Spent,
                waiting,
            },
            at,
        };
    }
    let above = height - depth;
    let n = open(asking, at, r, path, work, waiting);
    Stepped {
        moved: Moved {
            made: Move::Opens {
                start,
                height: above as u32,
            },
            waiting: n,
        },
        at: Node {
            level: depth + 1,
            number: 2 * (start as usize >> above),
        },
    }
}
