// The bitmap of a term, block by block, in a slice.
ghost use Rattle.std.specs.Prelude.{◌≡◌, ◌+◌, ◌-◌, ◌^◌, ◌≤◌, ◌<◌, length, replicate};
ghost use Rattle.std.proofs.lemmas.List.Edits.{sets};
ghost use Rattle.model.specs.Opening.{contents};
ghost use Rattle.wavelet.specs.Levels.{level_of};
ghost use Rattle.wavelet.specs.Spans.{Ordered, span};
ghost use Rattle.bitmaps.specs.Words.{block_height, words_from};
ghost use Rattle.bitmaps.specs.Bitmaps.{bitmap};

use crate::single::document_at;
use crate::word::node_word;
use archive::Archive;
use archive_ranges::term_start;
use wavelet::{Span, Tree};

// Blocks without a document.
fn clear(masks: &mut [u64], place: usize, blocks: usize)
    requires { place + blocks ≤ length masks.old }
    ensures { masks.new ≡ sets masks.old place (replicate blocks 0) }
{
    masks[place..place + blocks].fill(0);
}

// The blocks of a node of level j, from start up to end, with the one entry at place p in it: one of them has the bit of its document.
fn put_alone(
    tree: &Tree<'_>,
    j: usize,
    start: usize,
    p: usize,
    end: usize,
    blocks: usize,
    place: usize,
    masks: &mut [u64],
)
    requires j_bound { (j + 6 ≤ tree.now.levels.height) × (blocks ≡ 2 ^ (tree.now.levels.height - 6 - j)) × Ordered tree.now.levels.entries (span start p (p + 1) end)
        × (place + blocks ≤ length masks.old) }
    ensures { masks.new ≡ sets masks.old place
        (words_from (level_of tree.now.bytes.now tree.now.levels) 6 (tree.now.levels.height - 6 - j) j (span start p (p + 1) end)) }
{
    let document = document_at(tree, j, start, p, end);
    let before = document / 64;
    clear(masks, place, before);
    masks[place + before] = 1 << (document % 64);
    clear(masks, place + before + 1, blocks - before - 1);
}

// The blocks of a node of level j with a range in it, so many, from a place of the slice on.
fn put_blocks(tree: &Tree<'_>, j: usize, s: Span, blocks: usize, place: usize, masks: &mut [u64])
    requires height_bound { (j + block_height tree.now.levels.height ≤ tree.now.levels.height)
        × (blocks ≡ 2 ^ (tree.now.levels.height - block_height tree.now.levels.height - j))
        × Ordered tree.now.levels.entries s × (place + blocks ≤ length masks.old) }
    ensures { masks.new ≡ sets masks.old place
        (words_from (level_of tree.now.bytes.now tree.now.levels) (block_height tree.now.levels.height)
        (tree.now.levels.height - block_height tree.now.levels.height - j) j s) }
{
    if s.lo == s.hi {
        clear(masks, place, blocks);
        return;
    }
    if blocks == 1 {
        masks[place] = node_word(tree, j, s.start, s.lo, s.hi, s.end);
        return;
    }
    if s.hi == s.lo + 1 {
        put_alone(tree, j, s.start, s.lo, s.end, blocks, place, masks);
        return;
    }
    let two = tree.halve(j, s);
    let half = blocks / 2;
    put_blocks(tree, j + 1, two.zero, half, place, masks);
    put_blocks(tree, j + 1, two.one, half, place + half, masks);
}

// The bitmap of a term from a place of the slice on; its blocks are 2 ^ (h - 6), or 1.
pub fn put_bitmap(archive: &Archive<'_>, term: usize, place: usize, masks: &mut [u64])
    requires term_lt_terms { (term < archive.now.layout.terms) × (place + 64 ≤ length masks.old) }
    ensures { masks.new ≡ sets masks.old place (bitmap (contents archive.now.bytes.now) archive.now.layout.levels.height term) }
{
    let tree = archive.tree();
    let root = Span {
        start: 0,
        lo: term_start(archive, term),
        hi: term_start(archive, term + 1),
        end: tree.levels.entries,
    };
    put_blocks(
        &tree,
        0,
        root,
        1 << tree.levels.height.saturating_sub(6),
        place,
        masks,
    );
}
