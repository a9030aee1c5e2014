// The word of a node of height at most 6: a bit for each document under it, 1 where the range has an entry of it.
ghost use Rattle.std.specs.Prelude.{◌≡◌, ◌+◌, ◌-◌, ◌*◌, ◌^◌, ◌≤◌, ◌<◌};
ghost use Rattle.wavelet.specs.Levels.{level_of};
ghost use Rattle.wavelet.specs.Spans.{Ordered, span};
ghost use Rattle.bitmaps.specs.Words.{span_word, last_word};

use crate::single::document_at;
use wavelet::{Span, Tree};

// The words of two halves of so many documents, one after the other.
fn beside(zero: u64, one: u64, documents: usize) -> u64
    requires { (zero < 2 ^ documents) × (one < 2 ^ documents) × (documents ≤ 32) }
    ensures { result ≡ zero + 2 ^ documents * one }
{
    zero + (one << documents)
}

// The two documents of a node of the last row: the zeros of a range are entries of one, and the ones of the other.
fn last_word(tree: &Tree<'_>, j: usize, lo: usize, hi: usize) -> u64
    requires j_lt_height { (j < tree.now.levels.height) × (lo ≤ hi) × (hi ≤ tree.now.levels.entries) }
    ensures { (result ≡ last_word (level_of tree.now.bytes.now tree.now.levels j) lo hi) × (result < 4) }
{
    let ones = tree.ones_between(j, lo, hi);
    (ones < hi - lo) as u64 + 2 * (0 < ones) as u64
}

// The range lo to hi of a node of level j, which spans start to end, with an entry at least. An empty half is not entered.
// The places pass as numbers: a struct would be copied on the way.
pub fn node_word(tree: &Tree<'_>, j: usize, start: usize, lo: usize, hi: usize, end: usize) -> u64
    requires j_le_height { (j ≤ tree.now.levels.height) × (tree.now.levels.height ≤ j + 6) × (lo < hi) × Ordered tree.now.levels.entries (span start lo hi end) }
    ensures { (result ≡ span_word (level_of tree.now.bytes.now tree.now.levels) (tree.now.levels.height - j) j (span start lo hi end))
        × (result < 2 ^ (2 ^ (tree.now.levels.height - j))) }
{
    let height = tree.levels.height;
    if j == height {
        return 1;
    }
    if hi == lo + 1 {
        return 1 << document_at(tree, j, start, lo, end);
    }
    if j + 1 == height {
        return last_word(tree, j, lo, hi);
    }
    let two = tree.halve(j, Span { start, lo, hi, end });
    let zero = two.zero;
    let one = two.one;
    let first = if zero.lo == zero.hi {
        0
    } else {
        node_word(tree, j + 1, zero.start, zero.lo, zero.hi, zero.end)
    };
    let second = if one.lo == one.hi {
        0
    } else {
        node_word(tree, j + 1, one.start, one.lo, one.hi, one.end)
    };
    beside(first, second, 1 << (height - j - 1))
}
