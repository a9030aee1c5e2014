// Why an operation has no answer: document 01's table "Refused, by place", with 18 and 19 of document 02. A refusal yields its number alone.
#![tactic(auto)]

ghost use Rattle.std.specs.Prelude.{◌≡◌};
ghost use Rattle.refusals.specs.Refusals.{refusal_number};

use std::error::Error;
use std::fmt;

// In the order of their numbers, from 1.
#[derive(Clone, Copy, Debug, PartialEq, Eq, Hash)]
pub enum Refusal {
    // Opening: fewer than 40 bytes.
    TooShort,
    // Opening: the edition is not 1.
    Edition,
    // Opening: n, N or W is outside its limits.
    Limits,
    // Opening: one of the three pairs differs from the layout.
    Pairs,
    // Opening: the length differs.
    Length,
    // Opening: the term table differs.
    TermTable,
    // Opening: a sample is wrong.
    Sample,
    // Opening: an unused bit is 1.
    UnusedBit,
    // Opening: an entry is N or more.
    Entry,
    // Question: no terms, or more than eight.
    TermCount,
    // Question: an argument is outside its range.
    Argument,
    // Lent slices: the one for answers, or one of the reader's two, is too short.
    AnswerSlice,
    // Lent slices: the one for work is too short.
    WorkSlice,
    // Writer: n, N or W is outside its limits.
    WriterLimits,
    // Writer: an entry is N or more.
    WriterEntry,
    // Writer: the term lengths do not add up to n.
    WriterLengths,
    // Writer: the target is shorter than the archive.
    WriterTarget,
    // Question with and, or, not: it has no reading.
    Question,
    // Question of a set: it is too long, or does not ascend.
    Set,
}

impl From<Refusal> for u32 {
    ghost from_gives = { λ r number. number ≡ refusal_number r };

    fn from(r: Refusal) -> u32 {
        match r {
            Refusal::TooShort => 1,
            Refusal::Edition => 2,
            Refusal::Limits => 3,
            Refusal::Pairs => 4,
            Refusal::Length => 5,
            Refusal::TermTable => 6,
            Refusal::Sample => 7,
            Refusal::UnusedBit => 8,
            Refusal::Entry => 9,
            Refusal::TermCount => 10,
            Refusal::Argument => 11,
            Refusal::AnswerSlice => 12,
            Refusal::WorkSlice => 13,
            Refusal::WriterLimits => 14,
            Refusal::WriterEntry => 15,
            Refusal::WriterLengths => 16,
            Refusal::WriterTarget => 17,
            Refusal::Question => 18,
            Refusal::Set => 19,
        }
    }
}

// As the program writes it: the word and the number.
impl fmt::Display for Refusal {
    fn fmt<W: fmt::Write>(&self, f: &mut fmt::Formatter<W>) -> fmt::Result {
        write!(f, "refused {}", u32::from(*self))
    }
}

impl Error for Refusal {}
