// Questions for a number, by a plain count over the list.
ghost use Rattle.std.specs.Prelude.{◌⊎◌, ◌≤◌, ◌<◌, OnErr};

use crate::outcome::{Bounds, Found, Kind, Question, Refusal, Sizes};
use slices::{at, count_at};

fn access(entries: &[u32], l: Sizes, place: u32) -> Result<u32, Refusal> {
    if l.n <= place {
        return Err(Refusal::Argument);
    }
    Ok(at(entries, place))
}

fn rank(entries: &[u32], l: Sizes, document: u32, place: u32) -> Result<u32, Refusal> {
    if l.documents <= document || l.n < place {
        return Err(Refusal::Argument);
    }
    let before = entries.iter().take(place as usize);
    Ok(before.filter(|x| **x == document).count() as u32)
}

// The first place of a document from a place on; n where there is none.
pub fn next_place(entries: &[u32], n: u32, document: u32, from: u32) -> u32 {
    (from..n).find(|i| at(entries, *i) == document).unwrap_or(n)
}

// The place of the j-th entry of a document; n where it has fewer.
fn select(entries: &[u32], l: Sizes, document: u32, j: u32) -> Result<u32, Refusal> {
    if l.documents <= document || j == 0 {
        return Err(Refusal::Argument);
    }
    let mut places = (0..l.n).filter(|i| at(entries, *i) == document);
    Ok(places.nth(j as usize - 1).unwrap_or(l.n))
}

// The entries under the first so many terms.
fn total(lengths: &[u32], terms: u32) -> u32 {
    let first = lengths.iter().take(terms as usize);
    first.fold(0u32, |sum, length| sum.wrapping_add(*length))
}

// From the start of term f to the end of term g.
pub fn range_of_terms(lengths: &[u32], l: Sizes, f: u32, g: u32) -> Result<Bounds, Refusal>
    ensures { OnErr result ((g < f) ⊎ (l.terms ≤ g)) }
{
    if g < f || l.terms <= g {
        return Err(Refusal::Argument);
    }
    Ok(Bounds {
        from: total(lengths, f),
        to: total(lengths, g + 1),
    })
}

pub fn range_of_entries(l: Sizes, a: u32, b: u32) -> Result<Bounds, Refusal> {
    if b < a || l.n < b {
        return Err(Refusal::Argument);
    }
    Ok(Bounds { from: a, to: b })
}

// The place where a document first stands in a range, counted from entry 0 (document 02, M-108).
pub fn first_place(entries: &[u32], range: Bounds, document: u32) -> u32 {
    next_place(entries, range.to, document, range.from)
}

// The entries of a range.
pub fn part(entries: &[u32], range: Bounds) -> &[u32] {
    let part = entries.get(range.from as usize..range.to as usize);
    part.unwrap_or_default()
}

// How often each document occurs in a range.
pub fn counts(entries: &[u32], range: Bounds) -> [u32; 4096] {
    let mut counts = [0; 4096];
    for x in part(entries, range) {
        count_at(&mut counts, *x);
    }
    counts
}

// The first document with more than r entries up to and with it.
fn quantile(entries: &[u32], l: Sizes, range: Bounds, r: u32) -> Result<u32, Refusal> {
    let mut left = r;
    for (d, count) in (0..l.documents).zip(&counts(entries, range)) {
        if left < *count {
            return Ok(d);
        }
        left -= *count;
    }
    Err(Refusal::Argument)
}

pub fn answer(entries: &[u32], lengths: &[u32], l: Sizes, q: Question) -> Result<Found, Refusal> {
    let number = match q.kind {
        Kind::Access => access(entries, l, q.a)?,
        Kind::Rank => rank(entries, l, q.a, q.b)?,
        Kind::Select => select(entries, l, q.a, q.b)?,
        Kind::QuantileOfEntries => quantile(entries, l, range_of_entries(l, q.a, q.b)?, q.c)?,
        Kind::QuantileOfTerms => quantile(entries, l, range_of_terms(lengths, l, q.a, q.b)?, q.c)?,
        _ => return Ok(Found::from(range_of_terms(lengths, l, q.a, q.b)?)),
    };
    Ok(Found::Number(number))
}
