// The count of a set of documents before a place: each entry is looked for in the set (document 02, M-106).
use crate::outcome::{Found, Refusal, Sizes};

// Whether each document is above the one before it.
fn ascends(set: &[u32]) -> bool {
    set.is_sorted_by(|x, y| x < y)
}

pub fn rank_set(entries: &[u32], l: Sizes, set: &[u32], place: u32) -> Result<Found, Refusal> {
    if 64 < set.len() || !ascends(set) {
        return Err(Refusal::Set);
    }
    if l.n < place || set.iter().any(|document| l.documents <= *document) {
        return Err(Refusal::Argument);
    }
    let before = entries.iter().take(place as usize);
    let seen = before.filter(|x| set.contains(x)).count();
    Ok(Found::Number(seen as u32))
}
