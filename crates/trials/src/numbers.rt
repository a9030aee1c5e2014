// Questions of an archive for a number: access, rank, select, quantile, the range of terms.
use crate::answered::{answered, ranged};
use crate::differences::Tally;
use crate::library::{Library, number_at};
use crate::random::{below, draw, near, once_in, two_ends};
use plain::outcome::{Found, Kind, Question, Refusal, question_of};

fn asked(archive: &[u8], q: Question) -> Result<Found, Refusal> {
    match q.kind {
        Kind::Access => answered(queries::access(archive, q.a)),
        Kind::Rank => answered(queries::rank(archive, q.a, q.b)),
        Kind::Select => answered(queries::select(archive, q.a, q.b)),
        Kind::QuantileOfEntries => answered(queries::quantile(archive, q.a, q.b, q.c)),
        Kind::QuantileOfTerms => answered(queries::quantile_terms(archive, q.a, q.b, q.c)),
        _ => ranged(queries::range_of_terms(archive, q.a, q.b)),
    }
}

// A document: most often one that has entries.
fn document(l: Library, seed: u32) -> u32 {
    if once_in(draw(seed, 1), 3) {
        return near(draw(seed, 2), l.sizes.documents.wrapping_sub(1));
    }
    number_at(l.entries, below(draw(seed, 3), l.sizes.n) as usize)
}

// A range up to m and a rank near the given size, or near the range's own where none is given.
fn ranked(kind: Kind, m: u32, size: Option<u32>, seed: u32) -> Question {
    let e = two_ends(draw(seed, 1), m);
    let rank = match size {
        None => near(draw(seed, 2), e.last.wrapping_sub(e.first)),
        Some(size) => near(draw(seed, 3), size),
    };
    question_of(kind, e.first, e.last, rank)
}

// About half of each one's part, where n are shared by m.
fn half_share(n: u32, m: u32) -> u32 {
    if m == 0 {
        return 1;
    }
    (n / m / 2).wrapping_add(1)
}

fn drawn(kind: Kind, l: Library, seed: u32) -> Question {
    let n = l.sizes.n;
    let last_term = l.sizes.terms.wrapping_sub(1);
    match kind {
        Kind::Access => question_of(kind, near(draw(seed, 1), n.wrapping_sub(1)), 0, 0),
        Kind::Rank => question_of(kind, document(l, draw(seed, 2)), near(draw(seed, 3), n), 0),
        Kind::Select => {
            let share = half_share(n, l.sizes.documents);
            question_of(
                kind,
                document(l, draw(seed, 4)),
                near(draw(seed, 5), share),
                0,
            )
        }
        Kind::QuantileOfEntries => ranked(kind, n, None, draw(seed, 6)),
        Kind::QuantileOfTerms => {
            let share = half_share(n, l.sizes.terms);
            ranked(kind, last_term, Some(share), draw(seed, 7))
        }
        _ => {
            let e = two_ends(draw(seed, 8), last_term);
            question_of(kind, e.first, e.last, 0)
        }
    }
}

// One question of a kind, through the archive and over the list.
pub fn ask(kind: Kind, l: Library, seed: u32, made: &mut Tally) {
    let q = drawn(kind, l, draw(seed, 1));
    let expected = plain::numbers::answer(l.entries, l.lengths, l.sizes, q);
    made.compare(q, asked(l.archive, q), expected, true);
    if kind == Kind::Select {
        made.count_place(expected, l.sizes.n);
    }
}
