// The first places of the documents listed: their pairs become three numbers each, by a pass over the range or by a walk for each document.
ghost use Rattle.std.specs.Prelude.{◌≡◌, ◌*◌, ◌^◌, ◌≤◌, length, get_or, ltb};
ghost use Rattle.model.specs.Lists.{Every, part, overwrite};
ghost use Rattle.model.specs.Queries.{pairs_in, flat_placed};
ghost use Rattle.model.specs.TopK.{with_places};
ghost use Rattle.wavelet.specs.Levels.{entries_in};
ghost use Rattle.answers.specs.Spread.{Counted};
ghost use Rattle.listing.specs.Places.{Cursors};

use crate::pass::place_entries;
use answers::put_placed;
use first_places::put_first_places;
use wavelet::Tree;

// The first n pairs, each with the place that a table has for its document. The loop is that of `put_first_places`: one function over both would take a closure for the place,
// whose clauses would be as long as this is.
fn put_noted(first: &[u16], n: usize, answers: &mut [u32])
    requires { (3 * n ≤ length answers.old) × (n ≤ 4096) × Every (λ p. ltb p.document (length first.now)) (pairs_in answers.old n) }
    ensures { answers.new ≡ overwrite (flat_placed (λ d. get_or first.now d 0) (pairs_in answers.old n)) answers.old }
{
    for i in (0..n).rev() {
        let at = 2 * i;
        let document = answers[at];
        let count = answers[at + 1];
        let place = first[document as usize] as usize;
        put_placed(answers, i, document, count, place);
    }
}

// By the pass, which the cursors of the range's nodes are ready for.
fn put_by_pass(
    tree: &Tree<'_>,
    a: usize,
    b: usize,
    n: usize,
    cursors: &mut [u16],
    answers: &mut [u32],
)
    requires a_le_b { (a ≤ b) × (b ≤ tree.now.levels.entries) × (2 ^ tree.now.levels.height ≤ length cursors.old) × Cursors tree.now.levels.height (entries_in tree.now.bytes.now tree.now.levels) a b b cursors.old }
    requires n_in_bounds { (3 * n ≤ length answers.old) × (n ≤ 4096) × Counted (part a b (entries_in tree.now.bytes.now tree.now.levels)) (pairs_in answers.old n) }
    ensures { answers.new ≡ overwrite (with_places a (part a b (entries_in tree.now.bytes.now tree.now.levels)) (pairs_in answers.old n)) answers.old }
{
    let mut first = [0u16; 4096];
    place_entries(tree, a, b, cursors, &mut first);
    put_noted(&first, n, answers);
}

// A pass takes as long as there are entries, and walks as long as there are documents: a walk takes about the time of 24 entries.
pub fn put_places(
    tree: &Tree<'_>,
    a: usize,
    b: usize,
    n: usize,
    cursors: &mut [u16],
    answers: &mut [u32],
)
    requires a_le_b { (a ≤ b) × (b ≤ tree.now.levels.entries) × (2 ^ tree.now.levels.height ≤ length cursors.old) × Cursors tree.now.levels.height (entries_in tree.now.bytes.now tree.now.levels) a b b cursors.old }
    requires n_in_bounds { (3 * n ≤ length answers.old) × (n ≤ 4096) × Counted (part a b (entries_in tree.now.bytes.now tree.now.levels)) (pairs_in answers.old n) }
    ensures { answers.new ≡ overwrite (with_places a (part a b (entries_in tree.now.bytes.now tree.now.levels)) (pairs_in answers.old n)) answers.old }
{
    if 24 * n < b - a {
        put_first_places(tree, a, b, n, answers);
    } else {
        put_by_pass(tree, a, b, n, cursors, answers);
    }
}
