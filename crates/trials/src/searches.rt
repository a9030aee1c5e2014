// Top-k questions: the greedy search and probing, over entries and over terms, and the weighted search of one to eight terms.
use crate::answered::{answered, ended};
use crate::differences::Tally;
use crate::library::{Library, front};
use crate::lists::{drawn_terms, nine};
use crate::random::{Ends, below, draw, near, room, two_ends};
use paths::Terms;
use plain::outcome::{Found, Kind, Question, Refusal, Sizes};

// With the first so many numbers of either slice lent.
fn search(
    archive: &[u8],
    q: Question,
    t: Terms,
    answers: &mut [u32],
    work: &mut [u32],
) -> Result<Found, Refusal> {
    let answers = answers
        .get_mut(..q.answers as usize)
        .ok_or(Refusal::Unlent)?;
    let work = work.get_mut(..q.work as usize).ok_or(Refusal::Unlent)?;
    match q.kind {
        Kind::GreedyOfEntries => {
            ended(top_k::greedy_entries(archive, q.a, q.b, q.c, q.d, answers, work))
        }
        Kind::GreedyOfTerms => {
            ended(top_k::greedy_terms(archive, q.a, q.b, q.c, q.d, answers, work))
        }
        Kind::ProbingOfEntries => {
            answered(top_k::probing_entries(archive, q.a, q.b, q.c, answers, work))
        }
        Kind::ProbingOfTerms => {
            answered(top_k::probing_terms(archive, q.a, q.b, q.c, answers, work))
        }
        _ => ended(weighted::weighted(archive, t, q.c, q.d, answers, work)),
    }
}

// The same over the list.
fn plain_search(
    l: Library,
    q: Question,
    t: Terms,
    answers: &mut [u32],
    work: &mut [u32],
) -> Result<Found, Refusal> {
    let numbers = nine(t);
    match q.kind {
        Kind::GreedyOfEntries
        | Kind::GreedyOfTerms
        | Kind::ProbingOfEntries
        | Kind::ProbingOfTerms => {
            plain::search::search(l.entries, l.lengths, l.sizes, q, answers, work)
        }
        _ => {
            let terms = front(&numbers, t.size);
            plain::weighted::weighted(l.entries, l.lengths, l.sizes, terms, q, answers, work)
        }
    }
}

// No documents, a few, all of them, or as many as 32 bits have.
fn drawn_k(l: Sizes, seed: u32) -> u32 {
    match below(draw(seed, 1), 6) {
        0 => u32::MAX,
        1 => near(draw(seed, 2), l.documents),
        _ => below(draw(seed, 3), 9),
    }
}

// The ends of a range of entries or of terms; for the weighted search the first term, and how many there are.
fn drawn_ends(kind: Kind, l: Sizes, t: Terms, seed: u32) -> Ends {
    match kind {
        Kind::GreedyOfEntries | Kind::ProbingOfEntries => two_ends(seed, l.n),
        Kind::GreedyOfTerms | Kind::ProbingOfTerms => two_ends(seed, l.terms.wrapping_sub(1)),
        _ => Ends {
            first: t.numbers[0],
            last: t.size,
        },
    }
}

// The numbers that are written for each document: a pair for the weighted search, else a place too.
fn numbers_each(kind: Kind) -> u32 {
    match kind {
        Kind::Weighted => 2,
        _ => 3,
    }
}

fn drawn(kind: Kind, l: Sizes, t: Terms, seed: u32) -> Question {
    let e = drawn_ends(kind, l, t, draw(seed, 1));
    let k = drawn_k(l, draw(seed, 2));
    let asked = k.min(l.documents).wrapping_mul(numbers_each(kind));
    Question {
        kind,
        a: e.first,
        b: e.last,
        c: k,
        d: u32::MAX,
        answers: room(draw(seed, 3), asked),
        work: room(draw(seed, 4), l.documents.wrapping_mul(4)),
    }
}

// What is lent holds the junk at first.
pub fn ask(
    q: Question,
    t: Terms,
    l: Library,
    junk: u32,
    made: &mut Tally,
) -> Result<Found, Refusal> {
    let mut answers = [junk; 12300];
    let mut plain = [junk; 12300];
    let mut work = [junk; 16400];
    let mut plain_work = [junk; 16400];
    let found = search(l.archive, q, t, &mut answers, &mut work);
    let expected = plain_search(l, q, t, &mut plain, &mut plain_work);
    made.compare(q, found, expected, answers == plain && work == plain_work);
    expected
}

fn with_allowance(q: Question, allowance: u32) -> Question {
    Question { d: allowance, ..q }
}

// The same question with the openings that it needs as the allowance, with one less, and with any fewer.
fn ask_again(q: Question, t: Terms, openings: u32, l: Library, seed: u32, made: &mut Tally) {
    let exact = with_allowance(q, openings);
    let less = with_allowance(q, openings.wrapping_sub(1));
    let fewer = with_allowance(q, below(draw(seed, 4), openings));
    let _ = ask(exact, t, l, draw(seed, 1), made);
    let _ = ask(less, t, l, draw(seed, 2), made);
    let _ = ask(fewer, t, l, draw(seed, 3), made);
}

pub fn ask_drawn(kind: Kind, l: Library, seed: u32, made: &mut Tally) {
    let t = drawn_terms(l.sizes, draw(seed, 4));
    let q = drawn(kind, l.sizes, t, draw(seed, 2));
    if let Ok(Found::Done { openings, .. }) = ask(q, t, l, draw(seed, 1), made) {
        ask_again(q, t, openings, l, draw(seed, 3), made);
    }
}
