// The next document that several terms have in common: down the tree with the ranges of all terms at once, past every node where one has no entry.
ghost use Rattle.std.specs.Prelude.{◌≡◌, map, ◌+◌, ◌-◌, ◌*◌, ◌^◌, ◌≤◌, ◌<◌, length};
ghost use Rattle.bits.specs.Sequences.{below};
ghost use Rattle.model.specs.Opening.{contents};
ghost use Rattle.model.specs.Queries.{counts_under};
ghost use Rattle.paths.specs.Paths.{count_at};
ghost use Rattle.paths.specs.Query.{size, spans};
ghost use Rattle.conjunction.specs.Conjunction.{common_count, next_of, next_common};
ghost use Rattle.conjunction.specs.Orders.{Ready, HeldAt, after_of, resume_of};

use paths::{Node, Query, frame_of};

// A document that all terms have, with the sum of its counts.
#[derive(Clone, Copy)]
pub struct Common {
    pub document: usize,
    pub count: usize,
}

// The sum of the counts in a frame, 0 where a term has no entry.
fn common_count(path: &[u32], frame: usize, size: usize) -> usize
    requires { (length path.now ≡ 468) × (frame + 9 ≤ 234) × (size ≤ 8) }
    ensures { result ≡ common_count (map (count_at path.now frame) (below size)) }
{
    let mut sum: usize = 0;
    for k in 0..size {
        let pair = 2 * (frame + 1 + k);
        let lo = path[pair] as usize;
        let hi = path[pair + 1] as usize;
        if hi <= lo {
            return 0;
        }
        sum += hi - lo;
    }
    sum
}

// The node to the right of one that is done with: its other half, or that of the nearest node above.
fn after(level: usize, number: usize) -> Node
    requires { (number < 2 ^ level) × (level ≤ 12) }
    ensures { result ≡ after_of level number }
{
    let mut j = level;
    let mut n = number;
    while n % 2 == 1 {
        n = n / 2;
        j -= 1;
    }
    Node {
        level: j,
        number: n + 1,
    }
}

// Where to go on from a document upward: the root, or after the leaf before it.
fn resume(height: usize, from: usize) -> Node
    requires { (from ≤ 2 ^ height) × (height ≤ 12) }
    ensures { result ≡ resume_of height from }
{
    if from == 0 {
        Node {
            level: 0,
            number: 0,
        }
    } else {
        after(height, from - 1)
    }
}

// The next document from `from` upward. The path is where the search for the one before ended, and then where this one ends.
pub fn next_common(query: &Query<'_, '_>, from: usize, path: &mut [u32]) -> Option<Common>
    requires path_len { (length path.old ≡ 468) × (from ≤ 2 ^ query.now.archive.layout.levels.height) }
    requires ready { Ready (spans query.now) (size query.now) path.old query.now.archive.layout.levels.height from }
    ensures { (next_of result ≡ next_common (counts_under (contents query.now.archive.bytes.now) query.now.terms.now) query.now.archive.layout.levels.height from)
        × HeldAt (spans query.now) (size query.now) path.new query.now.archive.layout.levels.height result }
{
    let height = query.archive.layout.levels.height;
    let mut node = resume(height, from);
    // from node to node: no index is counted
    while node.number >> node.level == 0 {
        let level = node.level;
        let number = node.number;
        let count = common_count(path, frame_of(level, number), query.terms.len());
        if count < 1 {
            node = after(level, number);
        } else if level == height {
            return Some(Common {
                document: number,
                count,
            });
        } else {
            // The zero half is tried first; what comes after it is the one half.
            query.open_node(level, number, path);
            node = Node {
                level: level + 1,
                number: 2 * number,
            };
        }
    }
    None
}
