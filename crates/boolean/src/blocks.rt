// Block by block: the bitmaps of the different words, and the documents that match.
ghost use Rattle.std.specs.Prelude.{◌≡◌, true, ◌*◌, ◌^◌, ◌≤◌, ◌<◌, min, length};
ghost use Rattle.std.proofs.lemmas.List.Edits.{sets};
ghost use Rattle.model.specs.Opening.{contents};
ghost use Rattle.model.specs.Reading.{reading};
ghost use Rattle.matching.specs.Sets.{set_at};
ghost use Rattle.boolean.specs.Words.{WordsBelow};
ghost use Rattle.boolean.specs.Blocks.{Below, Filled, Blank, set_by, is_a_reading, matched};

use crate::documents::put_documents;
use archive::{Archive, Layout};
use bitmaps::put_bitmap;
use matching::{Matching, matching_set};

// The bitmaps of the terms, 64 masks each.
pub fn put_bitmaps(archive: &Archive<'_>, terms: &[u16], masks: &mut [u64])
    requires few { (length terms.now ≤ 32) × (length masks.old ≡ 2048) }
    requires below { Below archive.now.layout.terms terms.now (length terms.now) }
    ensures { Filled (contents archive.now.bytes.now) archive.now.layout.levels.height terms.now (length terms.now) masks.new }
{
    for (i, term) in terms.iter().enumerate() {
        put_bitmap(archive, *term as usize, 64 * i, masks);
    }
}

// The documents of a block: 64, or as many as a smaller tree has.
fn block_size(height: usize) -> usize
    requires { height ≤ 12 }
    ensures { result ≡ 2 ^ min 6 height }
{
    1 << height.min(6)
}

// Whether none of the first terms has a document in a block.
fn is_blank(masks: &[u64], terms: usize, block: usize) -> bool
    requires { (64 * terms ≤ length masks.now) × (terms ≤ 32) × (block < 64) }
    ensures { result ≡ true → Blank masks.now terms block }
{
    (0..terms).all(|i| masks[64 * i + block] == 0)
}

// The documents of a block that match; none where the question has no reading.
fn set_in(question: &[u16], masks: &[u64], block: usize) -> u64
    requires { block < 64 }
    ensures { result ≡ set_by (set_at masks.now block) (reading question.now) }
{
    match matching_set(question, masks, block) {
        Matching::Documents(set) => set,
        Matching::NoReading => 0,
    }
}

// The same, where `blank` is what a block without a document of any term comes to: such a block need not be read.
fn set_of(question: &[u16], masks: &[u64], terms: usize, block: usize, blank: u64) -> u64
    requires terms_in_bounds { (64 * terms ≤ length masks.now) × (terms ≤ 32) × (block < 64) × (length question.now ≤ 64) }
    requires words_below { WordsBelow terms question.now × (blank ≡ set_by (λ _. 0) (reading question.now)) }
    ensures { result ≡ set_by (set_at masks.now block) (reading question.now) }
{
    if is_blank(masks, terms, block) {
        return blank;
    }
    set_in(question, masks, block)
}

// The documents that match a question with a reading, by the masks of its words, in the front of the answers; how many. The words are numbers of terms.
pub fn put_matching(
    question: &[u16],
    masks: &[u64],
    terms: usize,
    l: Layout,
    answers: &mut [u32],
) -> usize
    requires height_bound { (l.levels.height ≤ 12) × (l.documents ≤ 2 ^ l.levels.height) × (l.documents ≤ length answers.old) }
    requires terms_in_bounds { (64 * terms ≤ length masks.now) × (terms ≤ 32) × (length question.now ≤ 64) × WordsBelow terms question.now }
    requires question_value { is_a_reading (reading question.now) ≡ true }
    ensures { (result ≡ length (matched masks.now (reading question.now) l.levels.height l.documents))
        × (answers.new ≡ sets answers.old 0 (matched masks.now (reading question.now) l.levels.height l.documents)) }
{
    let size = block_size(l.levels.height);
    let blank = set_in(question, &[0u64; 1], 0);
    let mut found = 0;
    for block in 0..l.documents.div_ceil(size) {
        let first = size * block;
        let set = set_of(question, masks, terms, block, blank);
        let some = size.min(l.documents - first);
        found = put_documents(set, first, some, found, answers);
    }
    found
}
