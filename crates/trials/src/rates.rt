// The rate: drawn, exact halves and what is beside them among them, and every one of a small size.
use crate::answered::answered;
use crate::differences::Tally;
use crate::random::{below, draw, two_ends};
use plain::outcome::{Kind, Question, question_of};

// An odd number of the 2,000 parts of a size, or one less or more.
fn beside_half(seed: u32) -> Question {
    let part = below(draw(seed, 1), 2147483).wrapping_add(1);
    let odd = below(draw(seed, 2), 1000).wrapping_mul(2).wrapping_add(1);
    let count = odd
        .wrapping_mul(part)
        .wrapping_add(below(draw(seed, 3), 3))
        .wrapping_sub(1);
    question_of(Kind::PerMille, count, part.wrapping_mul(2000), 0)
}

// Any size and a count below it, two small numbers, or one near a half.
pub fn rate(seed: u32) -> Question {
    match below(draw(seed, 1), 4) {
        0 => {
            let size = draw(seed, 2);
            question_of(Kind::PerMille, below(draw(seed, 3), size), size, 0)
        }
        1 => beside_half(draw(seed, 4)),
        _ => {
            let e = two_ends(draw(seed, 5), 300);
            question_of(Kind::PerMille, e.first, e.last, 0)
        }
    }
}

// One question, through the code and by going up.
pub fn ask(q: Question, made: &mut Tally) {
    let expected = plain::rate::per_mille(q.a, q.b);
    made.compare(q, answered(queries::per_mille(q.a, q.b)), expected, true);
    made.count_half(expected, plain::rate::is_half(q.a, q.b));
}

// Every size up to 200, with every count up to one above it.
pub fn ask_rates(made: &mut Tally) {
    for size in 0..201 {
        for count in 0..size + 2 {
            ask(
                question_of(Kind::PerMilleOfSmallSizes, count, size, 0),
                made,
            );
        }
    }
}
