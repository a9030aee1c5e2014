// The documents of a set in a lent slice, one number each.
ghost use Rattle.std.specs.Prelude.{◌≡◌, [], ◌∷◌, ◌+◌, ◌%◌, ◌^◌, ◌≤◌, ◌<◌, length};
ghost use Rattle.std.proofs.lemmas.List.Edits.{sets};
ghost use Rattle.bits.specs.Sequences.{up_from};
ghost use Rattle.boolean.specs.Blocks.{First, members};

// The documents of a set among the first so many.
fn among(set: u64, size: usize) -> u64
    requires { size ≤ 64 }
    ensures { result ≡ set % 2 ^ size }
{
    if size < 64 { set % (1 << size) } else { set }
}

// How many documents stand before the first of a set.
fn before_first(set: u64) -> usize
    requires { 0 < set }
    ensures { First set result }
{
    set.trailing_zeros() as usize
}

// One document.
fn put_one(document: usize, place: usize, answers: &mut [u32])
    requires { (place < length answers.old) × (document < 2 ^ 32) }
    ensures { answers.new ≡ sets answers.old place (document ∷ []) }
{
    answers[place] = document as u32;
}

// Eight documents one after the other.
fn put_eight(document: usize, place: usize, answers: &mut [u32])
    requires { (place + 8 ≤ length answers.old) × (document + 8 < 2 ^ 32) }
    ensures { answers.new ≡ sets answers.old place (up_from document 8) }
{
    for k in 0..8 {
        answers[place + k] = (document + k) as u32;
    }
}

// The documents of a set of so many from `first` on, from place `at` of the slice on; the place after them. Where the next eight are all in the set
// they are written at once.
pub fn put_documents(set: u64, first: usize, size: usize, at: usize, answers: &mut [u32]) -> usize
    requires { (size ≤ 64) × (first + size < 2 ^ 32) × (at + size ≤ length answers.old) }
    ensures { (result ≡ at + length (members set first size)) × (answers.new ≡ sets answers.old at (members set first size)) }
{
    // What is left of the set decides each turn, so this stays a while: there is no list to go over.
    let mut left = among(set, size);
    let mut place = at;
    let mut i = 0;
    while 0 < left {
        if left % 256 == 255 {
            put_eight(first + i, place, answers);
            place += 8;
            left = left >> 8;
            i += 8;
        } else {
            let zeros = before_first(left);
            put_one(first + i + zeros, place, answers);
            place += 1;
            left = left >> zeros >> 1;
            i += zeros + 1;
        }
    }
    place
}
