// Select: down by the bits of a document to its leaf, and up by the places of bits.
ghost use Rattle.std.specs.Prelude.{◌≡◌, ◌-◌, ◌^◌, ◌≤◌, ◌<◌};
ghost use Rattle.bits.specs.Sequences as sequences;
ghost use Rattle.wavelet.specs.Levels.{entries_in, level_of};
ghost use Rattle.wavelet_select.specs.Places.{up_from_half, offset_from};

use crate::level::select_bit;
use std::hint::select_unpredictable;
use wavelet::Tree;

// How far into the node of level j from start to end, with `before` ones before it, what is k into a half stands.
pub fn up(
    tree: &Tree<'_>,
    j: usize,
    start: usize,
    end: usize,
    before: usize,
    bit: usize,
    k: usize,
) -> usize
    requires j_lt_height { (j < tree.now.levels.height) × (start < end) × (end ≤ tree.now.levels.entries) × (k ≤ tree.now.levels.entries) }
    requires before_value { (before ≡ sequences.rank 1 (level_of tree.now.bytes.now tree.now.levels j) start) × (before ≤ start) }
    ensures { result ≡ up_from_half (level_of tree.now.bytes.now tree.now.levels j) start bit k }
{
    let one = bit == 1;
    let like = select_unpredictable(one, before, start - before);
    select_bit(tree, j, one, start, end, like + k + 1) - start
}

// How far into its node, from start to end in level j, the entry d stands that has k like it before it; the node's size where it has none: the end of
// a half is no place in it, and becomes the end of the node. Rows that remain fall at each call.
fn offset_of(tree: &Tree<'_>, d: usize, j: usize, start: usize, end: usize, k: usize) -> usize
    requires j_le_height { (j ≤ tree.now.levels.height) × (start ≤ end) × (end ≤ tree.now.levels.entries) }
    ensures { result ≡ offset_from (level_of tree.now.bytes.now tree.now.levels) d (tree.now.levels.height - j) j start end k }
{
    if j == tree.levels.height {
        return k.min(end - start);
    }
    let node = tree.rank_node(j, start, end);
    let bit = tree.bit_of(d, j);
    let from = select_unpredictable(bit == 1, node.middle, start);
    let to = select_unpredictable(bit == 1, end, node.middle);
    let below = offset_of(tree, d, j + 1, from, to, k);
    if below == to - from {
        return end - start;
    }
    up(tree, j, start, end, node.before, bit, below)
}

// The place of the i-th entry d, i from 1; the end where there are fewer.
pub fn select(tree: &Tree<'_>, d: usize, i: usize) -> usize
    requires d_bound { (d < 2 ^ tree.now.levels.height) × (0 < i) }
    ensures { result ≡ sequences.select d (entries_in tree.now.bytes.now tree.now.levels) i }
{
    offset_of(tree, d, 0, 0, tree.levels.entries, i - 1)
}
