// Questions with and, or, not: the documents under each word by a scan of the list, then one document at a time by the postfix order.
use crate::marks::{Symbol, WORDS};
use crate::numbers::{part, range_of_terms};
use crate::outcome::{Found, Refusal, Sizes};
use crate::postfix::postfix_of;
use crate::reading::has_reading;
use arrayvec::ArrayVec;
use slices::put;

// A row for each word of a question, in the order of the question: which documents have an entry under it. A word that the library does not have is
// refused. 64 numbers with a reading have at most 32 words.
fn mark_words(
    entries: &[u32],
    lengths: &[u32],
    l: Sizes,
    numbers: &[u32],
    under: &mut [[bool; 4096]; 32],
) -> Result<(), Refusal> {
    let words = numbers.iter().filter(|x| **x < WORDS);
    for (row, word) in under.iter_mut().zip(words) {
        for x in part(entries, range_of_terms(lengths, l, *word, *word)?) {
            if let Some(marked) = row.get_mut(*x as usize) {
                *marked = true;
            }
        }
    }
    Ok(())
}

// One symbol of the postfix order, for a document: whether a part of the question holds of it. Nothing where a part lacks, as in no question with a reading.
fn step(
    symbol: Symbol,
    document: u32,
    under: &[[bool; 4096]; 32],
    parts: &mut ArrayVec<bool, 64>,
) -> Option<()> {
    let holds = match symbol {
        Symbol::Word(word) => *under.get(word as usize)?.get(document as usize)?,
        Symbol::Not => !parts.pop()?,
        Symbol::And => parts.pop()? & parts.pop()?,
        Symbol::Or => parts.pop()? | parts.pop()?,
        Symbol::Opens | Symbol::Closes => return None,
    };
    parts.try_push(holds).ok()
}

// Whether a document matches.
fn matches(postfix: &[Symbol], document: u32, under: &[[bool; 4096]; 32]) -> Option<bool> {
    let mut parts = ArrayVec::new();
    for symbol in postfix {
        step(*symbol, document, under, &mut parts)?;
    }
    parts.pop()
}

// A question: its documents go into the front of the answers, and how many they are is answered.
pub fn boolean(
    entries: &[u32],
    lengths: &[u32],
    l: Sizes,
    numbers: &[u32],
    lent: u32,
    answers: &mut [u32],
) -> Result<Found, Refusal> {
    if !has_reading(numbers) {
        return Err(Refusal::Question);
    }
    let mut under = [[false; 4096]; 32];
    mark_words(entries, lengths, l, numbers, &mut under)?;
    if lent < l.documents {
        return Err(Refusal::AnswerSlice);
    }
    let postfix = postfix_of(numbers);
    let mut listed = 0;
    for d in 0..l.documents {
        if matches(&postfix, d, &under) == Some(true) {
            put(answers, listed, d);
            listed += 1;
        }
    }
    Ok(Found::Number(listed))
}
