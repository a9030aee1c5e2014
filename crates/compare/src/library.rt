// Random libraries: their entries and term lengths are drawn, written, read back and asked.
use crate::archives;
use crate::shapes::Shape;
use plain::archive::length_of;
use plain::outcome::Kind;
use trials::differences::Tally;
use trials::library::{Library, number_at};
use trials::random::{below, draw, once_in};
use trials::{booleans, lists, numbers, orders, places, rates, searches, sets};

// A library of a shape.
pub fn ask_library(s: Shape, seed: u32, made: &mut Tally) {
    let mut entries = [0u32; 65536];
    let mut lengths = [0u32; 4096];
    for (i, entry) in (0..s.sizes.n).zip(entries.iter_mut()) {
        *entry = s.entries.draw(s.sizes.documents, i, draw(seed, 1));
    }
    // Each entry falls under a term.
    for i in 0..s.sizes.n {
        let term = s.lengths.draw(s.sizes.terms, i, draw(seed, 2));
        if let Some(length) = lengths.get_mut(term as usize) {
            *length = length.wrapping_add(1);
        }
    }
    let drawn = Library {
        archive: &[],
        entries: &entries,
        lengths: &lengths,
        sizes: s.sizes,
    };
    write_and_ask(drawn, s.questions, draw(seed, 3), made);
}

fn write_and_ask(l: Library, questions: u32, seed: u32, made: &mut Tally) {
    let junk = (draw(seed, 1) % 256) as u8;
    let mut target = [junk; 137400];
    let size = length_of(l.sizes);
    if once_in(draw(seed, 2), 8) {
        archives::write_short(l, made);
    }
    let lent = size.wrapping_add(below(draw(seed, 3), 6));
    archives::write(l, lent, junk, &mut target, made);
    if let Some(archive) = target.get(..size as usize) {
        ask_written(Library { archive, ..l }, questions, draw(seed, 4), made);
    }
}

const NUMBERS: [Kind; 7] = [
    Kind::Access,
    Kind::Rank,
    Kind::Select,
    Kind::QuantileOfEntries,
    Kind::QuantileOfTerms,
    Kind::RangeOfTerms,
    Kind::PerMille,
];

const LISTS: [Kind; 2] = [Kind::ListOfEntries, Kind::ListOfTerms];

const SEARCHES: [Kind; 4] = [
    Kind::GreedyOfEntries,
    Kind::GreedyOfTerms,
    Kind::ProbingOfEntries,
    Kind::ProbingOfTerms,
];

// The kind of question number i: of a number more often than of documents.
fn kind_of(i: u32) -> Kind {
    let turn = i as usize % 33;
    match turn {
        0..=13 => NUMBERS[turn % 7],
        14..=17 => LISTS[turn % 2],
        18..=21 => Kind::Conjunction,
        22..=29 => SEARCHES[turn % 4],
        _ => Kind::Weighted,
    }
}

fn ask_one(kind: Kind, l: Library, seed: u32, made: &mut Tally) {
    match kind {
        Kind::Access
        | Kind::Rank
        | Kind::Select
        | Kind::QuantileOfEntries
        | Kind::QuantileOfTerms
        | Kind::RangeOfTerms => numbers::ask(kind, l, seed, made),
        Kind::PerMille => rates::ask(rates::rate(seed), made),
        Kind::ListOfEntries | Kind::ListOfTerms => lists::list(kind, l, seed, made),
        Kind::Conjunction => lists::conjunction(l, seed, made),
        _ => searches::ask_drawn(kind, l, seed, made),
    }
}

// So many questions, kind by kind, and a fourth as many each with and, or, not, of sets of documents, and of orders of terms.
fn ask_drawn(l: Library, questions: u32, seed: u32, made: &mut Tally) {
    for i in 0..questions {
        ask_one(kind_of(i), l, draw(seed, i), made);
    }
    for i in 0..questions / 4 {
        booleans::ask_drawn(l, draw(draw(seed, 5), i), made);
        sets::ask_drawn(l, draw(draw(seed, 6), i), made);
        orders::ask_drawn(l, draw(draw(seed, 7), i), made);
    }
}

// The check on opening, the reader and the questions, of a written library. Not large libraries are walked too, over the places of two documents, any and
// that of the first entry, and asked for every order of a few terms.
fn ask_written(l: Library, questions: u32, seed: u32, made: &mut Tally) {
    archives::open(l, made);
    archives::read(l, seed, made);
    ask_drawn(l, questions, seed, made);
    if l.sizes.n < 1000 {
        places::walk(l, below(draw(seed, 4), l.sizes.documents), made);
        places::walk(l, number_at(l.entries, 0), made);
        orders::ask_orders(l, draw(seed, 8), made);
    }
}
