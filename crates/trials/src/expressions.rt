// Questions with and, or, not of any size, drawn from left to right: every one with a reading can come out, and noise where that is asked for.
use crate::library::Numbers;
use crate::random::{below, draw, once_in};
use plain::marks::{AND, CLOSES, NOT, OPENS, OR, WORDS};

// Words are drawn below a number. An operand begins with a bracket or with 'not' once in so many times, and so many brackets may be open at once.
#[derive(Clone, Copy, Debug, PartialEq, Eq)]
pub struct Style {
    pub words: u32,
    pub brackets: u32,
    pub nots: u32,
    pub depth: u32,
    pub noise: bool,
}

// One of the five marks, or a word three times in eight.
pub fn mark_or_word(words: u32, seed: u32) -> u32 {
    match below(draw(seed, 1), 8) {
        mark @ 0..=4 => AND + mark,
        _ => below(draw(seed, 2), words),
    }
}

fn opens(s: Style, open: u32, spare: u32, seed: u32) -> bool {
    3 <= spare && open < s.depth && once_in(seed, s.brackets)
}

fn negates(s: Style, spare: u32, seed: u32) -> bool {
    match spare {
        1 => false,
        2 => true,
        _ => once_in(seed, s.nots),
    }
}

// How an operand begins, where so many numbers are to come beside those that close what is open. Two can only be 'not' and a word.
fn beginning(s: Style, open: u32, spare: u32, seed: u32) -> u32 {
    if opens(s, open, spare, draw(seed, 1)) {
        return OPENS;
    }
    if negates(s, spare, draw(seed, 2)) {
        return NOT;
    }
    below(draw(seed, 3), s.words)
}

fn closes(open: u32, spare: u32, seed: u32) -> bool {
    spare == 0 || (open != 0 && once_in(seed, 3))
}

// What follows an operand.
fn following(open: u32, spare: u32, seed: u32) -> u32 {
    if closes(open, spare, draw(seed, 1)) {
        return CLOSES;
    }
    if once_in(draw(seed, 2), 2) {
        return AND;
    }
    OR
}

fn next(s: Style, operand: bool, open: u32, spare: u32, seed: u32) -> u32 {
    if s.noise {
        return mark_or_word(s.words, seed);
    }
    if operand {
        return following(open, spare, seed);
    }
    beginning(s, open, spare, seed)
}

fn open_after(open: u32, number: u32) -> u32 {
    match number {
        OPENS => open.wrapping_add(1),
        CLOSES => open.wrapping_sub(1),
        _ => open,
    }
}

fn ends_operand(number: u32) -> bool {
    number == CLOSES || number < WORDS
}

// So many numbers.
pub fn expression(s: Style, size: u32, seed: u32) -> Numbers {
    let mut numbers = Numbers::new();
    let mut operand = false;
    let mut open = 0;
    for i in 0..size {
        let spare = (size - i).wrapping_sub(open);
        let number = next(s, operand, open, spare, draw(seed, i));
        let _ = numbers.try_push(number);
        operand = ends_operand(number);
        open = open_after(open, number);
    }
    numbers
}
