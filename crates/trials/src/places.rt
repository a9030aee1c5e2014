// A walk over the places of a document, from its first entry to the end: number j beside the next place in the list.
use crate::answered::answered;
use crate::differences::Tally;
use crate::library::Library;
use plain::numbers::next_place;
use plain::outcome::{Found, Kind, question_of};

// One step: number j, where the places before `from` are passed.
fn step(l: Library, document: u32, j: u32, from: u32, made: &mut Tally) -> u32 {
    let place = next_place(l.entries, l.sizes.n, document, from);
    let expected = Ok(Found::Number(place));
    let q = question_of(Kind::WalkOfPlaces, document, j, 0);
    made.compare(
        q,
        answered(queries::select(l.archive, document, j)),
        expected,
        true,
    );
    made.count_place(expected, l.sizes.n);
    place
}

// The end is asked for too, and is n.
pub fn walk(l: Library, document: u32, made: &mut Tally) {
    let n = l.sizes.n;
    let mut from = 0;
    for passed in 0..=n {
        let place = step(l, document, passed.wrapping_add(1), from, made);
        if place == n {
            return;
        }
        from = place.wrapping_add(1);
    }
}
