// The question: the documents that match, ascending.
ghost use Rattle.std.specs.Prelude.{◌≡◌, true, false, ◌≤◌, leb, length};
ghost use Rattle.model.specs.Lists.{any};
ghost use Rattle.model.specs.Opening.{contents};
ghost use Rattle.model.specs.Reading.{reading};
ghost use Rattle.model.specs.Boolean.{words_in, boolean_result};
ghost use Rattle.answers.specs.Answers.{pairs_of};
ghost use Rattle.boolean.specs.Blocks.{is_a_reading, Found};

use crate::blocks::{put_bitmaps, put_matching};
use crate::words::{number_words, word_missing};
use archive::{Archive, open};
use matching::{Matching, matching_set};
use refusals::Refusal;

// Whether a question has a reading: it is read with no document under any word.
fn has_reading(question: &[u16]) -> bool
    ensures { result ≡ is_a_reading (reading question.now) }
{
    let masks = [0u64; 1];
    match matching_set(question, &masks, 0) {
        Matching::Documents(_set) => true,
        Matching::NoReading => false,
    }
}

// The documents go into the front of the answers; how many. Each different word is looked up once.
pub fn boolean_in(archive: &Archive<'_>, question: &[u16], answers: &mut [u32]) -> usize
    requires question_value { (is_a_reading (reading question.now) ≡ true) × (any (leb archive.now.layout.terms) (words_in question.now) ≡ false)
        × (archive.now.layout.documents ≤ length answers.old) }
    ensures { Found (contents archive.now.bytes.now) (reading question.now) result answers.old answers.new }
{
    let mut terms = [0u16; 32];
    let mut numbered = [0u16; 64];
    let mut masks = [0u64; 2048];
    let size = number_words(question, &mut terms, &mut numbered);
    put_bitmaps(archive, &terms[..size], &mut masks);
    let n = question.len();
    put_matching(&numbered[..n], &masks, size, archive.layout, answers)
}

pub fn boolean_opened(
    archive: &Archive<'_>,
    question: &[u16],
    answers: &mut [u32],
) -> Result<u32, Refusal>
    ensures { pairs_of result answers.new ≡ boolean_result archive.now.bytes.now question.now answers.old }
{
    if !has_reading(question) {
        return Err(Refusal::Question);
    }
    if word_missing(archive.layout, question) {
        return Err(Refusal::Argument);
    }
    if answers.len() < archive.layout.documents {
        return Err(Refusal::AnswerSlice);
    }
    Ok(boolean_in(archive, question, answers) as u32)
}

pub fn boolean(archive: &[u8], question: &[u16], answers: &mut [u32]) -> Result<u32, Refusal>
    ensures { pairs_of result answers.new ≡ boolean_result archive.now question.now answers.old }
{
    boolean_opened(&open(archive)?, question, answers)
}
