// Questions with and, or, not: with a reading, with one number edited, and noise.
use crate::answered::answered;
use crate::differences::Tally;
use crate::edits::edit;
use crate::expressions::{Style, expression};
use crate::library::{Library, Numbers, number_at, size_of};
use crate::random::{below, draw, near, once_in, room};
use arrayvec::ArrayVec;
use plain::marks::WORDS;
use plain::outcome::{Found, Kind, Question, Refusal, Sizes};

// Asks the numbers, in 16 bits each, with the first so many numbers of the answers lent.
fn boolean_into(
    archive: &[u8],
    numbers: &[u32],
    lent: u32,
    answers: &mut [u32],
) -> Result<Found, Refusal> {
    let mut shorts = ArrayVec::<u16, 72>::new();
    for number in numbers {
        let _ = shorts.try_push((number % 65536) as u16);
    }
    let answers = answers.get_mut(..lent as usize).ok_or(Refusal::Unlent)?;
    answered(boolean::boolean(archive, shorts.as_slice(), answers))
}

// A question, and the room that is lent. What is lent holds the junk at first.
pub fn ask(q: Question, numbers: &[u32], l: Library, junk: u32, made: &mut Tally) {
    let mut answers = [junk; 4104];
    let mut plain = [junk; 4104];
    let found = boolean_into(l.archive, numbers, q.answers, &mut answers);
    let expected = plain::boolean::boolean(
        l.entries, l.lengths, l.sizes, numbers, q.answers, &mut plain,
    );
    let alike = made.compare(q, found, expected, answers == plain);
    made.count_matches(expected, l.sizes.documents);
    if !alike {
        made.show(numbers);
    }
}

// As a question: the first three numbers, and how many there are.
pub fn named(kind: Kind, numbers: &[u32], lent: u32) -> Question {
    Question {
        kind,
        a: number_at(numbers, 0),
        b: number_at(numbers, 1),
        c: number_at(numbers, 2),
        d: size_of(numbers),
        answers: lent,
        work: 0,
    }
}

// Words from the first few, from all, from one more than there are, or any: the last two are refused most often.
fn drawn_words(l: Sizes, seed: u32) -> u32 {
    match below(draw(seed, 1), 16) {
        0 => WORDS,
        1 => l.terms.wrapping_add(1).min(WORDS),
        2..=4 => l.terms,
        _ => l.terms.min(below(draw(seed, 2), 6).wrapping_add(1)),
    }
}

// Without brackets, three deep, as deep as they may be, and deeper.
fn drawn_depth(seed: u32) -> u32 {
    match below(seed, 8) {
        0 => 0,
        1 => 3,
        2 => 9,
        _ => 8,
    }
}

fn drawn_style(l: Sizes, seed: u32) -> Style {
    Style {
        words: drawn_words(l, draw(seed, 1)),
        brackets: below(draw(seed, 2), 4).wrapping_add(1),
        nots: below(draw(seed, 3), 6).wrapping_add(2),
        depth: drawn_depth(draw(seed, 4)),
        noise: once_in(draw(seed, 5), 4),
    }
}

// From 0 to 65, or a few: noise has a reading only where it is short.
fn drawn_size(s: Style, seed: u32) -> u32 {
    if once_in(draw(seed, 1), 2) {
        return near(draw(seed, 2), 64).min(65);
    }
    let few = if s.noise { 8 } else { 20 };
    below(draw(seed, 3), few)
}

// A question, one in three of them edited.
fn drawn(l: Sizes, seed: u32) -> Numbers {
    let s = drawn_style(l, draw(seed, 1));
    let size = drawn_size(s, draw(seed, 2));
    if once_in(draw(seed, 3), 3) {
        let mut numbers = expression(s, size.wrapping_add(1), draw(seed, 4));
        edit(&mut numbers, s.words, draw(seed, 5));
        return numbers;
    }
    expression(s, size, draw(seed, 4))
}

pub fn ask_drawn(l: Library, seed: u32, made: &mut Tally) {
    let question = drawn(l.sizes, draw(seed, 1));
    let numbers = question.as_slice();
    let lent = room(draw(seed, 2), l.sizes.documents);
    ask(
        named(Kind::Boolean, numbers, lent),
        numbers,
        l,
        draw(seed, 3),
        made,
    );
}
