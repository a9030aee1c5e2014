// First places, by one pass over a range from its last entry to its first. Each node has a cursor: where those of its entries end in its row that the
// pass has not come to. An entry goes down from the root: each cursor on its way goes one back, and the bit there leads on. The place that is written
// last for a document is that of its first entry. A cursor's index is its node's number: 1 is the root, and the halves of v are 2 * v and 2 * v + 1.
ghost use Rattle.std.specs.Prelude.{◌≡◌, ◌^◌, ◌≤◌, ◌<◌, length, get_or, set};
ghost use Rattle.wavelet.specs.Levels.{entries_in};
ghost use Rattle.listing.specs.Places.{number_of, Ready, back_to, Cursors, FirstPlaces};

use wavelet::Tree;

// The cursor of the node q of level j begins where the range ends in it.
pub fn note_end(cursors: &mut [u16], j: usize, q: usize, hi: usize)
    requires { (j < 12) × (number_of j q < length cursors.old) × (hi < 65536) }
    ensures { cursors.new ≡ set cursors.old (number_of j q) hi }
{
    cursors[(1 << j) + q] = hi as u16;
}

// The entry i: down by the bits at its cursors, to the leaf of its document.
fn place_entry(tree: &Tree<'_>, i: usize, cursors: &mut [u16], first: &mut [u16])
    requires i_lt_entries { (i < tree.now.levels.entries) × (2 ^ tree.now.levels.height ≤ length cursors.old) × (2 ^ tree.now.levels.height ≤ length first.old)
        × Ready tree.now.levels.height (entries_in tree.now.bytes.now tree.now.levels) i cursors.old }
    ensures cursors_after { cursors.new ≡ back_to tree.now.levels.height (get_or (entries_in tree.now.bytes.now tree.now.levels) i 0) tree.now.levels.height cursors.old }
    ensures first_after { first.new ≡ set first.old (get_or (entries_in tree.now.bytes.now tree.now.levels) i 0) i }
{
    let mut v = 1;
    for j in 0..tree.levels.height {
        let p = cursors[v] - 1;
        cursors[v] = p;
        v = 2 * v + (tree.bit(j, p as usize) as usize);
    }
    first[v - (1 << tree.levels.height)] = i as u16;
}

// The entries a up to but without b, from the last to the first.
pub fn place_entries(tree: &Tree<'_>, a: usize, b: usize, cursors: &mut [u16], first: &mut [u16])
    requires a_le_b { (a ≤ b) × (b ≤ tree.now.levels.entries) × (2 ^ tree.now.levels.height ≤ length cursors.old) × (2 ^ tree.now.levels.height ≤ length first.old)
        × Cursors tree.now.levels.height (entries_in tree.now.bytes.now tree.now.levels) a b b cursors.old }
    ensures { FirstPlaces (entries_in tree.now.bytes.now tree.now.levels) a b first.new }
{
    for i in (a..b).rev() {
        place_entry(tree, i, cursors, first);
    }
}
