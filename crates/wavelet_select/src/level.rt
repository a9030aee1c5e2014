// Places of bits in one level of the tree, as bit_rows gives them.
ghost use Rattle.std.specs.Prelude.{◌≡◌, ◌≤◌, ◌<◌};
ghost use Rattle.bits.specs.Sequences.{bit, rank, select};
ghost use Rattle.wavelet.specs.Levels.{level_of};

use wavelet::Tree;

// The place of the i-th bit of level j that is v; fewer than i are before place a, and the places from a to e are looked at first.
pub fn select_bit(tree: &Tree<'_>, j: usize, v: bool, a: usize, e: usize, i: usize) -> usize
    requires j_lt_height { (j < tree.now.levels.height) × (a < e) × (e ≤ tree.now.levels.entries) × (rank (bit v) (level_of tree.now.bytes.now tree.now.levels j) a < i) }
    ensures { result ≡ select (bit v) (level_of tree.now.bytes.now tree.now.levels j) i }
{
    bit_rows::select_near(tree.row_at(j), v, a, e, i)
}
