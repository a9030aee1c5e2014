// Listings, three numbers a document, and conjunctions of one to eight terms, two a document.
use crate::answered::answered;
use crate::differences::Tally;
use crate::library::{Library, front};
use crate::random::{below, draw, near, once_in, room, two_ends};
use paths::Terms;
use plain::outcome::{Found, Kind, Question, Refusal, Sizes};
use plain::pairs;

// Lists with the first so many numbers of the answers lent.
fn list_into(archive: &[u8], q: Question, answers: &mut [u32]) -> Result<Found, Refusal> {
    let answers = answers
        .get_mut(..q.answers as usize)
        .ok_or(Refusal::Unlent)?;
    match q.kind {
        Kind::ListOfEntries => answered(listing::list(archive, q.a, q.b, answers)),
        _ => answered(listing::list_terms(archive, q.a, q.b, answers)),
    }
}

// A range of entries or of terms, with a room for its documents.
fn drawn(kind: Kind, l: Sizes, seed: u32) -> Question {
    let most = match kind {
        Kind::ListOfEntries => l.n,
        _ => l.terms.wrapping_sub(1),
    };
    let e = two_ends(draw(seed, 1), most);
    Question {
        kind,
        a: e.first,
        b: e.last,
        c: 0,
        d: 0,
        answers: room(draw(seed, 2), l.documents.wrapping_mul(3)),
        work: 0,
    }
}

pub fn list(kind: Kind, l: Library, seed: u32, made: &mut Tally) {
    let junk = draw(seed, 1);
    let mut answers = [junk; 12300];
    let mut plain = [junk; 12300];
    let q = drawn(kind, l.sizes, draw(seed, 2));
    let found = list_into(l.archive, q, &mut answers);
    let expected = pairs::list(l.entries, l.lengths, l.sizes, q, &mut plain);
    made.compare(q, found, expected, answers == plain);
}

fn conjunction_into(
    archive: &[u8],
    t: Terms,
    lent: u32,
    answers: &mut [u32],
) -> Result<Found, Refusal> {
    let answers = answers.get_mut(..lent as usize).ok_or(Refusal::Unlent)?;
    answered(conjunction::conjunction(archive, t, answers))
}

// A term, now and then W or more.
fn drawn_term(most: u32, seed: u32) -> u32 {
    if once_in(draw(seed, 1), 20) {
        return near(seed, most.wrapping_sub(1));
    }
    below(seed, most)
}

// One to eight terms; now and then none, or too many.
fn drawn_size(few: u32, seed: u32) -> u32 {
    if once_in(draw(seed, 1), 8) {
        return near(seed, 9);
    }
    few
}

// From all terms, or from the first few: repeated terms are frequent where they are drawn from the first few, terms without entries where W is large.
pub fn drawn_terms(l: Sizes, seed: u32) -> Terms {
    let few = below(seed, 8).wrapping_add(1);
    let most = if once_in(draw(seed, 1), 2) {
        l.terms
    } else {
        l.terms.min(few)
    };
    let numbers = draw(seed, 2);
    Terms {
        numbers: [1, 2, 3, 4, 5, 6, 7, 8].map(|i| drawn_term(most, draw(numbers, i))),
        size: drawn_size(few, draw(seed, 3)),
    }
}

// The terms with a ninth number behind them, so that the plain side can be asked for too many.
pub fn nine(t: Terms) -> [u32; 9] {
    let [a, b, c, d, e, f, g, h] = t.numbers;
    [a, b, c, d, e, f, g, h, 0]
}

pub fn conjunction(l: Library, seed: u32, made: &mut Tally) {
    let t = drawn_terms(l.sizes, draw(seed, 2));
    let lent = room(draw(seed, 3), l.sizes.documents.wrapping_mul(2));
    let q = named(Kind::Conjunction, t, lent);
    ask_terms(q, t, l, draw(seed, 1), made);
}

// The conjunction of some terms. What is lent holds the junk at first.
pub fn ask_terms(q: Question, t: Terms, l: Library, junk: u32, made: &mut Tally) {
    let mut answers = [junk; 8200];
    let mut plain = [junk; 8200];
    let found = conjunction_into(l.archive, t, q.answers, &mut answers);
    let numbers = nine(t);
    let terms = front(&numbers, t.size);
    let expected = pairs::conjunction(l.entries, l.lengths, l.sizes, terms, q.answers, &mut plain);
    made.compare(q, found, expected, answers == plain);
}

// As a question: the first three terms, and how many there are.
pub fn named(kind: Kind, t: Terms, lent: u32) -> Question {
    let [a, b, c, ..] = t.numbers;
    Question {
        kind,
        a,
        b,
        c,
        d: t.size,
        answers: lent,
        work: 0,
    }
}
