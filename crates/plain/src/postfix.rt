// A question with a reading in postfix order, by a stack of marks: each mark comes after what it stands before or between.
use crate::marks::Symbol;
use arrayvec::ArrayVec;

// The marks that wait on the stack, what is in postfix order, and how many words that has. A question has at most 64 numbers.
#[derive(Drop)]
struct Sorter {
    waiting: ArrayVec<Symbol, 64>,
    placed: ArrayVec<Symbol, 64>,
    words: u32,
}

// How strongly a mark binds. A bracket that opens holds back what waits before it.
fn strength(mark: Symbol) -> u32 {
    match mark {
        Symbol::Not => 3,
        Symbol::And => 2,
        Symbol::Or => 1,
        _ => 0,
    }
}

impl Sorter {
    // Takes the marks that bind so strongly or more from the stack, into postfix order. What is pushed here has room.
    fn take(&mut self, least: u32) {
        while let Some(mark) = self.waiting.pop() {
            if strength(mark) < least {
                let _ = self.waiting.try_push(mark);
                return;
            }
            let _ = self.placed.try_push(mark);
        }
    }

    // A word is placed as its number among the words of the question.
    fn place_word(&mut self) {
        let _ = self.placed.try_push(Symbol::Word(self.words));
        self.words = self.words.wrapping_add(1);
    }

    // 'Not' and a bracket that opens wait at once; 'and' and 'or' after those that bind as strongly, so equal ones group to the left. A bracket that closes
    // takes the one that opens from the stack.
    fn step(&mut self, symbol: Symbol) {
        match symbol {
            Symbol::Word(_) => return self.place_word(),
            Symbol::And | Symbol::Or => self.take(strength(symbol)),
            Symbol::Closes => self.take(1),
            Symbol::Not | Symbol::Opens => (),
        }
        if symbol == Symbol::Closes {
            self.waiting.pop();
        } else {
            let _ = self.waiting.try_push(symbol);
        }
    }
}

// Without the brackets.
pub fn postfix_of(numbers: &[u32]) -> ArrayVec<Symbol, 64> {
    let mut sorter = Sorter {
        waiting: ArrayVec::new(),
        placed: ArrayVec::new(),
        words: 0,
    };
    for symbol in numbers.iter().filter_map(|x| Symbol::try_from(*x).ok()) {
        sorter.step(symbol);
    }
    sorter.take(1);
    sorter.placed
}
