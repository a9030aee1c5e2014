// One descent for a whole set: at each node where two of its documents part, the set parts too, and no node is entered that has none of them.
ghost use Rattle.std.specs.Prelude.{◌≡◌, ◌≤◌, ◌<◌};
ghost use Rattle.wavelet.specs.Levels.{level_of};
ghost use Rattle.wavelet.specs.Spans.{Ordered, halves_of, span_at};
ghost use Rattle.rank_set.specs.Nodes.{Under, Reached, IsLowest, places_of, CountsAt};

use crate::Places;
use crate::sets::{front_size, lca_height};
use wavelet::{Levels, Place, Span, Tree};

// The depth of the lowest node that all documents of a set are under; one of depth j is given.
fn lowest(t: Levels, j: usize, set: &[u32]) -> usize
    requires { (t.height ≤ 12) × Under t.height j set.now }
    ensures { IsLowest t.height j set.now result }
{
    let first = set[0] as usize;
    let last = set[set.len() - 1] as usize;
    t.height - lca_height(first, last)
}

// A place of a node of level j, in both halves of the node.
fn halve_place(tree: &Tree<'_>, j: usize, p: Place) -> Places
    requires j_lt_height { (j < tree.now.levels.height) × Ordered tree.now.levels.entries (span_at p) }
    ensures { places_of result ≡ halves_of (level_of tree.now.bytes.now tree.now.levels j) (span_at p) }
{
    let at = Span {
        start: p.start,
        lo: p.at,
        hi: p.at,
        end: p.end,
    };
    let two = tree.halve(j, at);
    let zero = two.zero;
    let one = two.one;
    Places {
        zero: Place {
            start: zero.start,
            at: zero.lo,
            end: zero.end,
        },
        one: Place {
            start: one.start,
            at: one.lo,
            end: one.end,
        },
    }
}

// How many of the entries before a place belong to a set, by that place in a node of level j that all documents of the set are under.
// Where the set has every document of the lowest such node, all entries there count; else each half has some of them, and is asked for its part of the
// set. Rows that remain fall at each call.
pub fn rank_node(tree: &Tree<'_>, j: usize, p: Place, set: &[u32]) -> usize
    requires under { Under tree.now.levels.height j set.now × Reached tree.now.bytes.now tree.now.levels set.now j p }
    ensures { CountsAt tree.now.bytes.now tree.now.levels set.now j p result }
{
    if p.start == p.at {
        return 0;
    }
    let first = set[0] as usize;
    let depth = lowest(tree.levels, j, set);
    let height = tree.levels.height - depth;
    if set.len() == 1 << height {
        return tree.count_under(j, p, first, depth);
    }
    let node = tree.descend(j, p, first, depth);
    let two = halve_place(tree, depth, node);
    let zero = two.zero;
    let one = two.one;
    let size = front_size(set, height - 1);
    let zeros = rank_node(tree, depth + 1, zero, &set[..size]);
    let ones = rank_node(tree, depth + 1, one, &set[size..]);
    zeros + ones
}
