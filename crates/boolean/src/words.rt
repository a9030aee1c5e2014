// The words of a question: those that are no terms of the archive, and each different one once, with a number of its own.
ghost use Rattle.std.specs.Prelude.{◌≡◌, ◌&&◌, ◌≤◌, ◌<◌, leb, ltb, length};
ghost use Rattle.model.specs.Lists.{any};
ghost use Rattle.model.specs.Boolean.{words_in};
ghost use Rattle.boolean.specs.Words.{Placed, Numbered};

use archive::Layout;

// Whether a number is a word, and no term of the archive. Marks are no words.
fn is_missing(l: Layout, number: u16) -> bool
    ensures { result ≡ (ltb number 4096 && leb l.terms number) }
{
    number < 4096 && l.terms <= number as usize
}

// Whether one of the words is no term of the archive.
pub fn word_missing(l: Layout, question: &[u16]) -> bool
    ensures { result ≡ any (leb l.terms) (words_in question.now) }
{
    question.iter().any(|number| is_missing(l, *number))
}

// The place of a word among the terms: where it stands, or after the first `size`, where it is put then.
fn place_of(terms: &mut [u16], size: usize, word: u16) -> usize
    requires { size < length terms.old }
    ensures { (result ≤ size) × Placed terms.old size word result terms.new }
{
    match terms[..size].iter().position(|term| *term == word) {
        Some(at) => at,
        None => {
            terms[size] = word;
            size
        }
    }
}

// The different words of a question, and the question with the place of each word among them instead of it; how many they are. Without a heap the words
// stand in an array with their number beside it.
pub fn number_words(question: &[u16], terms: &mut [u16], numbered: &mut [u16]) -> usize
    requires { (length question.now ≤ 64) × (length (words_in question.now) ≤ 32) × (length terms.old ≡ 32) × (length numbered.old ≡ 64) }
    ensures { Numbered question.now (length question.now) terms.new result numbered.new }
{
    let mut size = 0;
    for (i, number) in question.iter().enumerate() {
        let number = *number;
        if number < 4096 {
            let at = place_of(terms, size, number);
            numbered[i] = at as u16;
            size = size.max(at + 1);
        } else {
            numbered[i] = number;
        }
    }
    size
}
