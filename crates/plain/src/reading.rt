// Whether a question has a reading, by one pass from left to right: a place awaits an operand or follows one, and so many brackets are open before it.
use crate::marks::Symbol;

// What stands before a place: how many brackets are open, and whether an operand ends there.
#[derive(Clone, Copy, PartialEq, Eq)]
struct Prefix {
    open: u32,
    operand: bool,
}

fn awaiting(open: u32) -> Option<Prefix> {
    Some(Prefix {
        open,
        operand: false,
    })
}

fn following(open: u32) -> Option<Prefix> {
    Some(Prefix {
        open,
        operand: true,
    })
}

// With one number more; none where nothing gives a reading any more. Eight brackets may be open at once.
fn step(before: Prefix, number: u32) -> Option<Prefix> {
    let symbol = Symbol::try_from(number).ok()?;
    let open = before.open;
    match (before.operand, symbol) {
        (false, Symbol::Word(_)) => following(open),
        (false, Symbol::Not) => awaiting(open),
        (false, Symbol::Opens) if open < 8 => awaiting(open + 1),
        (true, Symbol::And | Symbol::Or) => awaiting(open),
        (true, Symbol::Closes) => following(open.checked_sub(1)?),
        _ => None,
    }
}

// At most 64 numbers, an operand at the end, and each bracket closed.
pub fn has_reading(numbers: &[u32]) -> bool {
    let start = Prefix {
        open: 0,
        operand: false,
    };
    let end = numbers
        .iter()
        .try_fold(start, |before, number| step(before, *number));
    numbers.len() <= 64 && end == following(0)
}
