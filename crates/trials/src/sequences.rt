// Every sequence of up to five of three words and the five marks; brackets and nots by their number; every number of 16 bits alone, and between two words:
// each as a question with and, or, not, beside the plain side.
use crate::booleans::{ask, named};
use crate::differences::Tally;
use crate::library::{Library, Numbers, digit, number_at};
use crate::random::draw;
use plain::marks::{AND, CLOSES, NOT, OPENS};
use plain::outcome::Kind;
use std::cmp::Ordering;

// The sequences of so many, and those that their names say.
#[derive(Clone, Copy, Debug, PartialEq, Eq)]
enum Family {
    Letters(u32),
    Nested,
    Negated,
    Alone,
    Between,
}

impl Family {
    // How many questions a family has: 8^size, up to ten brackets on either side, up to 65 nots, and 65,536.
    fn questions(self) -> u32 {
        match self {
            Family::Letters(size) => 8u32.wrapping_pow(size),
            Family::Nested => 121,
            Family::Negated => 66,
            Family::Alone | Family::Between => 65536,
        }
    }

    // How many numbers question i has.
    fn size_of(self, i: u32) -> u32 {
        match self {
            Family::Letters(size) => size,
            Family::Nested => i / 11 + i % 11 + 1,
            Family::Negated => i.wrapping_add(1),
            Family::Alone => 1,
            Family::Between => 3,
        }
    }

    // The number at a place of question i: of brackets those that open stand first, then a word, then those that close.
    fn number_at(self, three: [u32; 3], i: u32, place: u32) -> u32 {
        match self {
            Family::Letters(_) => letter(three, digit(i, 8, place)),
            Family::Nested => match place.cmp(&(i / 11)) {
                Ordering::Less => OPENS,
                Ordering::Equal => three[0],
                Ordering::Greater => CLOSES,
            },
            Family::Negated if place < i => NOT,
            Family::Negated => three[0],
            Family::Alone => i,
            Family::Between if place == 1 => i,
            Family::Between => number_at(&three, place as usize),
        }
    }
}

// A word or a mark, as a digit to base 8.
fn letter(three: [u32; 3], digit: u32) -> u32 {
    if digit < 3 {
        return three[digit as usize];
    }
    AND.wrapping_add(digit - 3)
}

// Just the room that it takes is lent.
fn ask_one(family: Family, three: [u32; 3], i: u32, l: Library, made: &mut Tally) {
    let mut numbers = Numbers::new();
    for place in 0..family.size_of(i) {
        let _ = numbers.try_push(family.number_at(three, i, place));
    }
    let q = named(
        Kind::BooleanOfSequences,
        numbers.as_slice(),
        l.sizes.documents,
    );
    ask(q, numbers.as_slice(), l, draw(family.questions(), i), made);
}

fn ask_family(family: Family, three: [u32; 3], l: Library, made: &mut Tally) {
    for i in 0..family.questions() {
        ask_one(family, three, i, l, made);
    }
}

// Each number of 16 bits: 131,072 questions.
pub fn ask_numbers(three: [u32; 3], l: Library, made: &mut Tally) {
    ask_family(Family::Alone, three, l, made);
    ask_family(Family::Between, three, l, made);
}

// Sequences, brackets and nots: 37,636 questions.
pub fn ask_sequences(three: [u32; 3], l: Library, made: &mut Tally) {
    for size in 0..6 {
        ask_family(Family::Letters(size), three, l, made);
    }
    ask_family(Family::Nested, three, l, made);
    ask_family(Family::Negated, three, l, made);
}
