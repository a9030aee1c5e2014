// A question with one number changed, dropped, added, or exchanged for another of its numbers.
use crate::expressions::mark_or_word;
use crate::library::{Numbers, number_at, put, size_of};
use crate::random::{below, draw, once_in};
use plain::marks::{AND, CLOSES, WORDS};

// Numbers that are neither words nor marks, and the largest words: the ends of each class, and any between.
fn strange(seed: u32) -> u32 {
    match below(draw(seed, 1), 8) {
        0 => WORDS - 1,
        1 => WORDS,
        2 => AND - 1,
        3 => CLOSES + 1,
        4 => 65535,
        5 => below(draw(seed, 2), WORDS),
        6 => WORDS.wrapping_add(below(draw(seed, 3), AND - WORDS)),
        _ => (CLOSES + 1).wrapping_add(below(draw(seed, 4), 5531)),
    }
}

fn drawn_number(words: u32, seed: u32) -> u32 {
    if once_in(draw(seed, 1), 3) {
        return strange(draw(seed, 2));
    }
    mark_or_word(words, draw(seed, 3))
}

// Edits a question of one number or more, at a place from its first number to its end. At the end there is no number to change, the last one is dropped,
// and another is exchanged for 0.
pub fn edit(numbers: &mut Numbers, words: u32, seed: u32) {
    let size = size_of(numbers.as_slice());
    let place = below(draw(seed, 2), size.wrapping_add(1)) as usize;
    let number = drawn_number(words, draw(seed, 4));
    match below(draw(seed, 1), 4) {
        0 => put(numbers.as_mut_slice(), place, number),
        1 => drop_at(numbers, place),
        2 => add_at(numbers, place, number),
        _ => exchange(
            numbers.as_mut_slice(),
            place,
            below(draw(seed, 3), size) as usize,
        ),
    }
}

fn drop_at(numbers: &mut Numbers, place: usize) {
    if place < numbers.len() {
        numbers.remove(place);
    } else {
        numbers.pop();
    }
}

fn add_at(numbers: &mut Numbers, place: usize, number: u32) {
    if place <= numbers.len() {
        let _ = numbers.try_insert(place, number);
    }
}

fn exchange(numbers: &mut [u32], place: usize, other: usize) {
    let x = number_at(numbers, place);
    put(numbers, place, number_at(numbers, other));
    put(numbers, other, x);
}
