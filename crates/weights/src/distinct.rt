// How many different documents a range has.
ghost use Rattle.std.specs.Prelude.{◌≡◌, ◌+◌, ◌-◌, ◌^◌, ◌≤◌, ◌<◌};
ghost use Rattle.bits.specs.Sequences.{rank};
ghost use Rattle.model.specs.Lists.{part};
ghost use Rattle.model.specs.Weighted.{documents_in};
ghost use Rattle.wavelet.specs.Levels.{level_of, entries_in};
ghost use Rattle.wavelet.specs.Spans.{Ordered, span};
ghost use Rattle.weights.specs.Documents.{distinct_from};

use crate::last::distinct_last;
use wavelet::{Span, Tree};

// Those of a node, and the ones of its level before its end.
#[derive(Clone, Copy)]
struct Walked {
    documents: usize,
    after: usize,
}

// Those of the range lo to hi of a node of level j, which spans start to end and has so many ones before it.
#[cycle(distinct_node_distinct_two)]
fn distinct_node(
    tree: &Tree<'_>,
    j: usize,
    start: usize,
    before: usize,
    lo: usize,
    hi: usize,
    end: usize,
) -> Walked
    requires { (j + 1 < tree.now.levels.height) × Ordered tree.now.levels.entries (span start lo hi end) × (before ≡ rank 1 (level_of tree.now.bytes.now tree.now.levels j) start) }
    ensures { (result.documents ≡ distinct_from (level_of tree.now.bytes.now tree.now.levels) (tree.now.levels.height - j) j (span start lo hi end))
        × (result.documents ≤ hi - lo) × (result.after ≡ rank 1 (level_of tree.now.bytes.now tree.now.levels j) end) }
{
    let known = tree.halve_known(j, Span { start, lo, hi, end }, before);
    let two = known.two;
    let zero = two.zero;
    let one = two.one;
    let documents = distinct_two(
        tree,
        j + 1,
        zero.start,
        zero.lo,
        zero.hi,
        zero.end,
        one.lo,
        one.hi,
        one.end,
    );
    let after = known.after;
    Walked { documents, after }
}

// Those of two nodes of level j beside each other, which span start to middle and middle to end: the ones before the second
// are known from the first. A range of one entry has one document.
#[cycle(distinct_node_distinct_two)]
fn distinct_two(
    tree: &Tree<'_>,
    j: usize,
    start: usize,
    lo: usize,
    hi: usize,
    middle: usize,
    from: usize,
    to: usize,
    end: usize,
) -> usize
    requires { (j < tree.now.levels.height) × Ordered tree.now.levels.entries (span start lo hi middle) × Ordered tree.now.levels.entries (span middle from to end) }
    ensures { (result ≡ distinct_from (level_of tree.now.bytes.now tree.now.levels) (tree.now.levels.height - j) j (span start lo hi middle)
        + distinct_from (level_of tree.now.bytes.now tree.now.levels) (tree.now.levels.height - j) j (span middle from to end)) × (result ≤ (hi - lo) + (to - from)) }
{
    if j + 1 == tree.levels.height {
        return distinct_last(tree, j, lo, hi) + distinct_last(tree, j, from, to);
    }
    let count = hi - lo;
    let more = to - from;
    if count < 2 {
        if more < 2 {
            return count + more;
        }
        let before = tree.ones(j, middle);
        let high = distinct_node(tree, j, middle, before, from, to, end);
        return count + high.documents;
    }
    let before = tree.ones(j, start);
    let low = distinct_node(tree, j, start, before, lo, hi, middle);
    if more < 2 {
        return low.documents + more;
    }
    let high = distinct_node(tree, j, middle, low.after, from, to, end);
    low.documents + high.documents
}

// Those of the entries a up to but without b.
pub fn distinct_in(tree: &Tree<'_>, a: usize, b: usize) -> usize
    requires { (a ≤ b) × (b ≤ tree.now.levels.entries) }
    ensures { result ≡ documents_in (2 ^ tree.now.levels.height) (part a b (entries_in tree.now.bytes.now tree.now.levels)) }
{
    if tree.levels.height == 0 {
        return (a < b) as usize;
    }
    let n = tree.levels.entries;
    distinct_two(tree, 0, 0, a, b, n, n, n, n)
}
