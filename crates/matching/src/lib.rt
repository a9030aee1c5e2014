// A question with and, or, not, read and evaluated in one pass over 64 documents at a time (document 02, M-104). A set of documents is a word of 64 bits.
#![tactic(auto)]

mod parts;
mod readings;

ghost use Rattle.std.specs.Prelude.{◌≡◌, ◌<◌};
ghost use Rattle.model.specs.Reading.{reading};
ghost use Rattle.matching.specs.Sets.{set_at};
ghost use Rattle.matching.specs.Parsing.{matching_of};

use crate::readings::disjunction;

// A part of a question: the set of its documents and the place after it, or that it has no reading.
#[derive(Clone, Copy)]
pub enum Parse {
    Parsed(u64, usize),
    Unread,
}

// The documents that match a question, of 64; or that it has no reading.
#[derive(Clone, Copy)]
pub enum Matching {
    Documents(u64),
    NoReading,
}

// The documents of a block that match a question, by those of each term: bit i of number 64 * t + block of the masks is the i-th document of the block.
// A term beyond the masks has none.
pub fn matching_set(question: &[u16], masks: &[u64], block: usize) -> Matching
    requires { block < 64 }
    ensures { result ≡ matching_of (set_at masks.now block) (reading question.now) }
{
    if 64 < question.len() {
        return Matching::NoReading;
    }
    let parse = disjunction(question, masks, block, 0, 8);
    match parse {
        Parse::Parsed(set, next) => if next == question.len() {
            Matching::Documents(set)
        } else {
            Matching::NoReading
        },
        Parse::Unread => Matching::NoReading,
    }
}
