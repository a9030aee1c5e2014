// A range of one entry, followed down by its bits.
ghost use Rattle.std.specs.Prelude.{◌≡◌, ◌+◌, ◌-◌, ◌^◌, ◌<◌};
ghost use Rattle.wavelet.specs.Levels.{level_of};
ghost use Rattle.wavelet.specs.Spans.{Ordered, span};
ghost use Rattle.bitmaps.specs.Words.{span_word};

use wavelet::{Place, Tree};

// The document of the entry at place p of a node of level j, from start up to end: its number under the node. The word of the range has that bit alone.
// In the last row its bit is enough.
pub fn document_at(tree: &Tree<'_>, j: usize, start: usize, p: usize, end: usize) -> usize
    requires j_lt_height { (j < tree.now.levels.height) × Ordered tree.now.levels.entries (span start p (p + 1) end) }
    ensures { (result < 2 ^ (tree.now.levels.height - j))
        × (span_word (level_of tree.now.bytes.now tree.now.levels) (tree.now.levels.height - j) j (span start p (p + 1) end) ≡ 2 ^ result) }
{
    let mut place = Place { start, at: p, end };
    let mut document = 0;
    let last = tree.levels.height - 1;
    for i in j..last {
        let b = tree.bit(i, place.at) as usize;
        place = tree.step(i, place, b);
        document = 2 * document + b;
    }
    2 * document + tree.bit(last, place.at) as usize
}
