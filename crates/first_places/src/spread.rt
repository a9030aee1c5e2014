// Pairs become three numbers a document where they stand, from the last to the first: none is written over before it is read.
ghost use Rattle.std.specs.Prelude.{◌≡◌, ◌*◌, ◌≤◌, length};
ghost use Rattle.model.specs.Lists.{part, overwrite};
ghost use Rattle.model.specs.Queries.{pairs_in};
ghost use Rattle.model.specs.TopK.{with_places};
ghost use Rattle.wavelet.specs.Levels.{entries_in};
ghost use Rattle.answers.specs.Spread.{Counted};

use answers::put_placed;
use wavelet::Tree;
use wavelet_select::first_in;

// The first n pairs, of documents with their counts from place a up to but without b, each with the place of its first entry there.
pub fn put_first_places(tree: &Tree<'_>, a: usize, b: usize, n: usize, answers: &mut [u32])
    requires a_le_b { (a ≤ b) × (b ≤ tree.now.levels.entries) }
    requires n_in_bounds { (3 * n ≤ length answers.old) × (n ≤ 4096) × Counted (part a b (entries_in tree.now.bytes.now tree.now.levels)) (pairs_in answers.old n) }
    ensures { answers.new ≡ overwrite (with_places a (part a b (entries_in tree.now.bytes.now tree.now.levels)) (pairs_in answers.old n)) answers.old }
{
    for i in (0..n).rev() {
        let at = 2 * i;
        let document = answers[at];
        let count = answers[at + 1];
        let place = first_in(tree, document as usize, a, b, count as usize);
        put_placed(answers, i, document, count, place);
    }
}
