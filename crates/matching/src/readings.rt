// The three functions that read a question, in a cycle through brackets: not binds tightest, then and, then or, and equal ones group to the left.
// At each call the numbers that are left fall, or the level.
ghost use Rattle.std.specs.Prelude.{◌<◌};
ghost use Rattle.matching.specs.Sets.{set_at};
ghost use Rattle.matching.specs.Parsing.{Negation, Conjunction, Disjunction};

use crate::Parse;
use crate::parts::{
    after_mark, after_nots, both, close, deny, either, goes_on, mask_of, number_at,
};

const AND: u16 = 60000;

const OR: u16 = 60001;

const OPENS: u16 = 60003;

// A word or a bracket, with any number of 'not' before it, from a place on; `deeper` brackets may yet be opened.
#[cycle(conjunction_disjunction_negation)]
fn negation(question: &[u16], masks: &[u64], block: usize, at: usize, deeper: u32) -> Parse
    requires { block < 64 }
    ensures { Negation (set_at masks.now block) question.now at deeper result }
{
    let place = after_nots(question, at);
    let number = number_at(question, place);
    if number < 4096 {
        let operand = Parse::Parsed(mask_of(masks, block, number), place + 1);
        deny(operand, place - at)
    } else if number == OPENS {
        if deeper == 0 {
            Parse::Unread
        } else {
            let inside = disjunction(question, masks, block, place + 1, deeper - 1);
            deny(close(question, inside), place - at)
        }
    } else {
        Parse::Unread
    }
}

// Negations with 'and' between them.
#[cycle(conjunction_disjunction_negation)]
fn conjunction(question: &[u16], masks: &[u64], block: usize, at: usize, deeper: u32) -> Parse
    requires { block < 64 }
    ensures { Conjunction (set_at masks.now block) question.now at deeper result }
{
    let mut parse = negation(question, masks, block, at, deeper);
    while goes_on(question, parse, AND) {
        let second = negation(question, masks, block, after_mark(parse), deeper);
        parse = both(parse, second);
    }
    parse
}

// Conjunctions with 'or' between them.
#[cycle(conjunction_disjunction_negation)]
pub fn disjunction(question: &[u16], masks: &[u64], block: usize, at: usize, deeper: u32) -> Parse
    requires { block < 64 }
    ensures { Disjunction (set_at masks.now block) question.now at deeper result }
{
    let mut parse = conjunction(question, masks, block, at, deeper);
    while goes_on(question, parse, OR) {
        let second = conjunction(question, masks, block, after_mark(parse), deeper);
        parse = either(parse, second);
    }
    parse
}
