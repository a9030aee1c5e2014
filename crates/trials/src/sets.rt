// The count of a set of documents before a place: sets with gaps, neighbours, all documents, too many, and some with a number edited.
use crate::answered::answered;
use crate::differences::Tally;
use crate::library::{Library, Numbers, number_at, put, size_of};
use crate::random::{below, draw, near, once_in};
use plain::outcome::{Kind, Question, Sizes};

// How far apart documents are at most, so that so many of them fit; or neighbours.
fn drawn_gap(l: Sizes, size: u32, seed: u32) -> u32 {
    if size == 0 || once_in(draw(seed, 1), 4) {
        return 1;
    }
    (l.documents / size).wrapping_add(1)
}

// So many ascending documents from one on, up to N.
fn ascending(l: Sizes, first: u32, size: u32, gap: u32, seed: u32) -> Numbers {
    let mut set = Numbers::new();
    let mut next = first;
    for i in 0..size {
        if l.documents <= next {
            break;
        }
        let _ = set.try_push(next);
        next = next.wrapping_add(below(draw(seed, i), gap)).wrapping_add(1);
    }
    set
}

// From 0 to 64, a few or one, and sometimes 65.
fn drawn_size(seed: u32) -> u32 {
    match below(draw(seed, 1), 4) {
        0 => below(draw(seed, 2), 4),
        1 => below(draw(seed, 2), 12),
        _ => near(draw(seed, 2), 64).min(65),
    }
}

// A set, from one of the first documents or from any.
fn drawn(l: Sizes, seed: u32) -> Numbers {
    let size = drawn_size(draw(seed, 1));
    let gap = drawn_gap(l, size, draw(seed, 2));
    let starts = if once_in(draw(seed, 3), 3) {
        l.documents
    } else {
        gap
    };
    let first = below(draw(seed, 4), starts);
    ascending(l, first, size, gap, draw(seed, 5))
}

// One number becomes the one before it or after it, less by one, N, or any.
fn edit(l: Sizes, seed: u32, numbers: &mut [u32]) {
    let i = below(draw(seed, 1), size_of(numbers)) as usize;
    let x = match below(draw(seed, 2), 6) {
        0 => number_at(numbers, i.wrapping_sub(1)),
        1 => number_at(numbers, i.wrapping_add(1)),
        2 => number_at(numbers, i).wrapping_sub(1),
        3 => l.documents,
        4 => draw(seed, 3),
        _ => below(draw(seed, 3), l.documents),
    };
    put(numbers, i, x);
}

// Of a set, through the archive and over the list.
fn ask(l: Library, set: &[u32], place: u32, made: &mut Tally) {
    let q = Question {
        kind: Kind::RankOfASet,
        a: number_at(set, 0),
        b: number_at(set, 1),
        c: size_of(set),
        d: place,
        answers: 0,
        work: 0,
    };
    let found = answered(rank_set::rank_set(l.archive, set, place));
    let expected = plain::sets::rank_set(l.entries, l.sizes, set, place);
    let alike = made.compare(q, found, expected, true);
    made.count_members(expected, place);
    if !alike {
        made.show(set);
    }
}

// One in five sets is edited.
pub fn ask_drawn(l: Library, seed: u32, made: &mut Tally) {
    let set_seed = draw(seed, 1);
    let mut set = drawn(l.sizes, draw(set_seed, 1));
    if once_in(draw(set_seed, 2), 5) {
        edit(l.sizes, draw(set_seed, 3), set.as_mut_slice());
    }
    ask(l, set.as_slice(), near(draw(seed, 2), l.sizes.n), made);
}
