// The last row: a node of it has two documents, the zeros of a range are entries of one and the ones of the other.
ghost use Rattle.std.specs.Prelude.{◌≡◌, ◌-◌, ◌≤◌, ◌<◌};
ghost use Rattle.wavelet.specs.Levels.{level_of};
ghost use Rattle.weights.specs.Documents.{of_two};

use wavelet::Tree;

// How many of the two documents have an entry from place lo of the last row up to but without hi.
pub fn distinct_last(tree: &Tree<'_>, j: usize, lo: usize, hi: usize) -> usize
    requires { (j < tree.now.levels.height) × (lo ≤ hi) × (hi ≤ tree.now.levels.entries) }
    ensures { (result ≡ of_two (level_of tree.now.bytes.now tree.now.levels j) lo hi) × (result ≤ hi - lo) }
{
    let count = hi - lo;
    if count < 2 {
        return count;
    }
    let high = tree.ones_between(j, lo, hi);
    (0 < high) as usize + (high < count) as usize
}
