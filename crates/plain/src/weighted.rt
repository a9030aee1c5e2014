// The weighted search by a plain count over the list: df by marking documents, a weight by trying every g, then scores as for the other searches.
use crate::numbers::{counts, part, range_of_terms};
use crate::outcome::{Found, Question, Refusal, Sizes};
use crate::pairs::asked_terms;
use crate::search::{Scores, check_room, clear};
use slices::put_array;

// How many documents have a count.
fn df_of(counts: &[u32], l: Sizes) -> u32 {
    let counts = counts.iter().take(l.documents as usize);
    counts.filter(|count| 0 < **count).count() as u32
}

// The largest g with 2^g × df^4 at most N^4; 0 without entries. N^4 is at most 2^48, so nothing that is tried reaches 2^64.
fn weight(documents: u32, df: u32) -> u32 {
    let most = u64::from(documents).wrapping_pow(4);
    let mut product = u64::from(df).wrapping_pow(4);
    for g in 0..64 {
        product = product.wrapping_add(product);
        if most < product {
            return g;
        }
    }
    0
}

// The terms that are asked for, each once, with k and allowance as the other searches have them.
pub fn weighted(
    entries: &[u32],
    lengths: &[u32],
    l: Sizes,
    numbers: &[u32],
    q: Question,
    answers: &mut [u32],
    work: &mut [u32],
) -> Result<Found, Refusal> {
    let asked = asked_terms(numbers, l.terms)?;
    check_room(l, q, 2)?;
    let mut scores = Scores::new(l);
    for term in &asked {
        let range = range_of_terms(lengths, l, *term, *term)?;
        let df = df_of(&counts(entries, range), l);
        scores.add(part(entries, range), weight(l.documents, df));
    }
    let (found, list) = scores.searched(l, q);
    for (i, x) in list.iter().enumerate() {
        put_array(answers, 2 * i, [x.document, x.score]);
    }
    clear(work, l);
    Ok(found)
}
