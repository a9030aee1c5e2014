// The first entry of a document in a range: down by its bits to its leaf with the range's places, and up by the places of bits (document 02, M-108).
ghost use Rattle.std.specs.Prelude.{◌≡◌, ◌-◌, ◌^◌, ◌≤◌, ◌<◌};
ghost use Rattle.bits.specs.Sequences.{occurrences};
ghost use Rattle.model.specs.Lists.{part};
ghost use Rattle.model.specs.Queries.{first_place};
ghost use Rattle.wavelet.specs.Levels.{entries_in, level_of};
ghost use Rattle.wavelet.specs.Spans.{span, Ordered};
ghost use Rattle.wavelet_select.specs.First.{Has, first_from};

use crate::ascent::up;
use wavelet::Tree;

// How far behind lo the first entry d stands in the node of level j from start to end, where the range's entries are from lo up to hi, and `count` of them
// are d. Where all of them are, it is the first. It stays as far where the other half has none of them. Rows that remain fall at each call.
fn offset_in(
    tree: &Tree<'_>,
    d: usize,
    count: usize,
    j: usize,
    start: usize,
    lo: usize,
    hi: usize,
    end: usize,
) -> usize
    requires j_le_height { (j ≤ tree.now.levels.height) × Ordered tree.now.levels.entries (span start lo hi end)
        × Has (level_of tree.now.bytes.now tree.now.levels) d (tree.now.levels.height - j) j (span start lo hi end) count }
    ensures { (result ≡ first_from (level_of tree.now.bytes.now tree.now.levels) d (tree.now.levels.height - j) j (span start lo hi end)) × (result < hi - lo) }
{
    if hi - lo == count {
        return 0;
    }
    let node = tree.rank_node(j, start, end);
    let two = tree.halve_range(j, node, lo, hi);
    let bit = tree.bit_of(d, j);
    let s = two.half(bit);
    let below = offset_in(tree, d, count, j + 1, s.start, s.lo, s.hi, s.end);
    if s.hi - s.lo == hi - lo {
        return below;
    }
    let before = node.before + (two.one.lo - node.middle);
    up(tree, j, lo, hi, before, bit, below)
}

// The place of the first entry d among the entries a up to but without b, of which `count` are d.
pub fn first_in(tree: &Tree<'_>, d: usize, a: usize, b: usize, count: usize) -> usize
    requires d_bound { (d < 2 ^ tree.now.levels.height) × (a ≤ b) × (b ≤ tree.now.levels.entries) × (0 < count)
        × (count ≡ occurrences d (part a b (entries_in tree.now.bytes.now tree.now.levels))) }
    ensures { (result ≡ first_place a (part a b (entries_in tree.now.bytes.now tree.now.levels)) d) × (result < b) }
{
    a + offset_in(tree, d, count, 0, 0, a, b, tree.levels.entries)
}
