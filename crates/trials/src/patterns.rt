// Every pattern of one to eight terms among three, so every way to repeat a term: its conjunction, its weighted search and its order, beside the
// plain side.
use crate::differences::Tally;
use crate::library::{Library, digit};
use crate::lists::{ask_terms, named};
use crate::random::{below, draw};
use crate::{orders, searches};
use paths::Terms;
use plain::outcome::{Kind, Question, Sizes};

// Pattern i of a size. Its digits to base 3, the lowest first, say which of the three stands at each place.
fn pattern(three: [u32; 3], i: u32, size: u32) -> Terms {
    Terms {
        numbers: [0, 1, 2, 3, 4, 5, 6, 7].map(|place| three[digit(i, 3, place) as usize % 3]),
        size,
    }
}

// A weighted search: k and the allowance from 0 to one more than there are documents, and just the room that it takes.
pub fn search_of(kind: Kind, t: Terms, l: Sizes, seed: u32) -> Question {
    let most = l.documents.wrapping_add(2);
    let k = below(draw(seed, 1), most);
    Question {
        kind,
        a: t.numbers[0],
        b: t.size,
        c: k,
        d: below(draw(seed, 2), most),
        answers: k.min(l.documents).wrapping_mul(2),
        work: l.documents.wrapping_mul(4),
    }
}

// All questions of a pattern.
fn ask_all(t: Terms, l: Library, seed: u32, made: &mut Tally) {
    let q = named(
        Kind::ConjunctionOfPatterns,
        t,
        l.sizes.documents.wrapping_mul(2),
    );
    let s = search_of(Kind::WeightedOfPatterns, t, l.sizes, draw(seed, 1));
    ask_terms(q, t, l, draw(seed, 2), made);
    let end = searches::ask(s, t, l, draw(seed, 3), made);
    made.count_end(end);
    orders::ask(t, l, draw(seed, 4), made);
}

// 9,840 patterns: 3^size of a size.
pub fn ask_patterns(three: [u32; 3], l: Library, made: &mut Tally) {
    for size in 1..9 {
        for i in 0..3u32.wrapping_pow(size) {
            ask_all(pattern(three, i, size), l, draw(size, i), made);
        }
    }
}
