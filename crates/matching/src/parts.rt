// Parts of a question: the number at a place, the set of a term, and what two parts or one come to.
ghost use Rattle.std.specs.Prelude.{◌≡◌, ◌^◌, ◌<◌};
ghost use Rattle.std.specs.Int.Bits.{bit_and, bit_or};
ghost use Rattle.matching.specs.Sets.{set_at};
ghost use Rattle.matching.specs.Parsing.{number_at, follows, place_after, together, complemented, denied_by, closed, Nots};

use crate::Parse;

const NOT: u16 = 60002;

const CLOSES: u16 = 60004;

// The documents of a block under a term; none beyond the masks.
pub fn mask_of(masks: &[u64], block: usize, term: u16) -> u64
    requires { block < 64 }
    ensures { result ≡ set_at masks.now block term }
{
    let at = 64 * term as usize + block;
    if at < masks.len() { masks[at] } else { 0 }
}

// The number at a place; beyond the end one that is neither a word nor a mark.
pub fn number_at(question: &[u16], at: usize) -> u16
    ensures { result ≡ number_at question.now at }
{
    if at < question.len() {
        question[at]
    } else {
        65535
    }
}

// Whether a mark follows what was parsed.
pub fn goes_on(question: &[u16], parse: Parse, mark: u16) -> bool
    ensures { result ≡ follows question.now mark parse }
{
    match parse {
        Parse::Parsed(_set, next) => number_at(question, next) == mark,
        Parse::Unread => false,
    }
}

// The place after that mark.
pub fn after_mark(parse: Parse) -> usize
    requires { place_after parse < 2 ^ 64 }
    ensures { result ≡ place_after parse }
{
    match parse {
        Parse::Parsed(_set, next) => next + 1,
        Parse::Unread => 0,
    }
}

// Two parts with 'and' between them.
pub fn both(first: Parse, second: Parse) -> Parse
    ensures { result ≡ together bit_and first second }
{
    match first {
        Parse::Unread => Parse::Unread,
        Parse::Parsed(a, _i) => match second {
            Parse::Unread => Parse::Unread,
            Parse::Parsed(b, j) => Parse::Parsed(a & b, j),
        },
    }
}

// Two parts with 'or' between them.
pub fn either(first: Parse, second: Parse) -> Parse
    ensures { result ≡ together bit_or first second }
{
    match first {
        Parse::Unread => Parse::Unread,
        Parse::Parsed(a, _i) => match second {
            Parse::Unread => Parse::Unread,
            Parse::Parsed(b, j) => Parse::Parsed(a | b, j),
        },
    }
}

// A part after 'not': all other documents of the block.
fn complement(parse: Parse) -> Parse
    ensures { result ≡ complemented parse }
{
    match parse {
        Parse::Unread => Parse::Unread,
        Parse::Parsed(set, next) => Parse::Parsed(!set, next),
    }
}

// The first place from `at` on without a 'not'.
pub fn after_nots(question: &[u16], at: usize) -> usize
    ensures { Nots question.now at result }
{
    let mut place = at;
    while number_at(question, place) == NOT {
        place += 1;
    }
    place
}

// A part after so many 'not'.
pub fn deny(parse: Parse, times: usize) -> Parse
    ensures { result ≡ denied_by times parse }
{
    let mut part = parse;
    let mut i: usize = 0;
    while i < times {
        part = complement(part);
        i += 1;
    }
    part
}

// What was parsed in a bracket, with the mark that closes it.
pub fn close(question: &[u16], parse: Parse) -> Parse
    requires { place_after parse < 2 ^ 64 }
    ensures { result ≡ closed question.now parse }
{
    match parse {
        Parse::Unread => Parse::Unread,
        Parse::Parsed(set, next) => if number_at(question, next) == CLOSES {
            Parse::Parsed(set, next + 1)
        } else {
            Parse::Unread
        },
    }
}
