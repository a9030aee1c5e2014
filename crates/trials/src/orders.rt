// The rarest term first, of terms as they are drawn; and up to five terms in every order in which they can be typed, with their weighted search.
use crate::answered::answered;
use crate::differences::Tally;
use crate::library::{Library, front};
use crate::lists::{drawn_terms, named, nine};
use crate::patterns::search_of;
use crate::random::{below, draw};
use crate::searches;
use paths::Terms;
use plain::orders;
use plain::outcome::{Kind, Sizes};

// Through the archive and over the lengths. What is lent for the order holds junk.
pub fn ask(t: Terms, l: Library, junk: u32, made: &mut Tally) {
    let mut order = [junk; 8];
    let mut plain = [junk; 8];
    let numbers = nine(t);
    let found = answered(rarest_first::rarest_first(l.archive, t, &mut order));
    let expected = orders::rarest_first(l.lengths, l.sizes, front(&numbers, t.size), &mut plain);
    made.compare(
        named(Kind::RarestFirst, t, 0),
        found,
        expected,
        order == plain,
    );
}

pub fn ask_drawn(l: Library, seed: u32, made: &mut Tally) {
    let t = drawn_terms(l.sizes, draw(seed, 1));
    ask(t, l, draw(seed, 2), made);
}

// The numbers in order `way`. Each way gives another order.
fn permute(numbers: &mut [u32], way: u32) {
    let mut rest = way as usize;
    for i in (1..numbers.len()).rev() {
        let choices = i + 1;
        numbers.swap(i, rest % choices);
        rest /= choices;
    }
}

fn permuted(t: Terms, way: u32) -> Terms {
    let mut numbers = t.numbers;
    if let Some(typed) = numbers.get_mut(..t.size as usize) {
        permute(typed, way);
    }
    Terms { numbers, ..t }
}

// One to five terms.
fn drawn_few(l: Sizes, seed: u32) -> Terms {
    Terms {
        size: below(draw(seed, 2), 5).wrapping_add(1),
        ..drawn_terms(l, draw(seed, 1))
    }
}

// Every order of a few terms, of which there are size!, is asked the same.
pub fn ask_orders(l: Library, seed: u32, made: &mut Tally) {
    let t = drawn_few(l.sizes, draw(seed, 1));
    let q = search_of(Kind::WeightedOfOrders, t, l.sizes, draw(seed, 2));
    let orders = (1..=t.size).fold(1u32, |orders, i| orders.wrapping_mul(i));
    for way in 0..orders {
        let typed = permuted(t, way);
        let junk = draw(seed, way);
        ask(typed, l, junk, made);
        let _ = searches::ask(q, typed, l, junk, made);
    }
}
