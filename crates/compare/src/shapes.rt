// How large a random library is, and how its entries and terms are drawn.
use plain::outcome::Sizes;
use trials::random::{below, draw};

// How numbers below m are drawn: evenly, low ones more often, always the same one, or in turn.
#[derive(Clone, Copy, Debug, PartialEq, Eq)]
pub enum Drawing {
    Even,
    Low,
    Same,
    InTurn,
}

// The sizes; how entries and how terms are drawn; how many questions of a group are asked.
#[derive(Clone, Copy, Debug, PartialEq, Eq)]
pub struct Shape {
    pub sizes: Sizes,
    pub entries: Drawing,
    pub lengths: Drawing,
    pub questions: u32,
}

impl Drawing {
    fn number(i: u32) -> Drawing {
        match i % 4 {
            0 => Drawing::Even,
            1 => Drawing::Low,
            2 => Drawing::Same,
            _ => Drawing::InTurn,
        }
    }

    // Number i of m numbers.
    pub fn draw(self, m: u32, i: u32, seed: u32) -> u32 {
        let any = draw(seed, i);
        match self {
            Drawing::Even => below(any, m),
            Drawing::Low => below(any, below(draw(any, 1), m)),
            Drawing::Same => below(seed, m),
            Drawing::InTurn => i.checked_rem(m).unwrap_or(0),
        }
    }
}

// Few entries now and then.
fn size(seed: u32) -> u32 {
    match below(draw(seed, 1), 8) {
        0 => below(draw(seed, 2), 4),
        1 => below(draw(seed, 3), 20),
        _ => below(draw(seed, 4), 201),
    }
}

fn documents(seed: u32) -> u32 {
    match below(draw(seed, 1), 16) {
        0 => 1,
        1 => 2,
        2 => 3,
        3 => 4,
        4 => 5,
        5 => 4095,
        6 => 4096,
        7 => 2u32.wrapping_pow(below(draw(seed, 2), 13)),
        8 => below(draw(seed, 3), 400).wrapping_add(1),
        9 => below(draw(seed, 5), 4096).wrapping_add(1),
        _ => below(draw(seed, 4), 40).wrapping_add(1),
    }
}

fn terms(seed: u32) -> u32 {
    match below(draw(seed, 1), 16) {
        0 => 1,
        1 => 2,
        2 => 4096,
        3 => below(draw(seed, 2), 300).wrapping_add(1),
        _ => below(draw(seed, 3), 12).wrapping_add(1),
    }
}

// With any N and W.
fn of_size(n: u32, questions: u32, seed: u32) -> Shape {
    Shape {
        sizes: Sizes {
            n,
            documents: documents(draw(seed, 1)),
            terms: terms(draw(seed, 2)),
        },
        entries: Drawing::number(below(draw(seed, 3), 4)),
        lengths: Drawing::number(below(draw(seed, 4), 4)),
        questions,
    }
}

// Sizes about those at which a row has one sample more.
fn middle(i: u32) -> u32 {
    match i % 5 {
        0 => 511,
        1 => 512,
        2 => 513,
        3 => 1024,
        _ => 1500,
    }
}

// All entries of the one term in one document of 4,096: no term can weigh more, and no score be larger.
fn heaviest() -> Shape {
    Shape {
        sizes: Sizes {
            n: 65535,
            documents: 4096,
            terms: 1,
        },
        entries: Drawing::Same,
        lengths: Drawing::Same,
        questions: 132,
    }
}

// As large as they may be.
fn largest(i: u32) -> Shape {
    Shape {
        sizes: Sizes {
            n: 65535,
            documents: 4096,
            terms: 4096,
        },
        entries: Drawing::number(i),
        lengths: Drawing::number(i / 2 % 2),
        questions: 132,
    }
}

// The shape of library i: 3,000 small ones, 100 middle ones, the four largest, then the heaviest.
pub fn shape_of(i: u32, seed: u32) -> Shape {
    match i {
        0..=2999 => of_size(size(draw(seed, 5)), 82, seed),
        3000..=3099 => of_size(middle(i), 132, seed),
        3100..=3103 => largest(i),
        _ => heaviest(),
    }
}
