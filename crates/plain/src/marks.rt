// The numbers of a question with and, or, not: words below 4,096, and five marks.
pub const WORDS: u32 = 4096;

pub const AND: u32 = 60000;

pub const OR: u32 = 60001;

pub const NOT: u32 = 60002;

pub const OPENS: u32 = 60003;

pub const CLOSES: u32 = 60004;

// What a number stands for.
#[derive(Clone, Copy, Debug, Default, PartialEq, Eq)]
pub enum Symbol {
    Word(u32),
    And,
    Or,
    #[default]
    Not,
    Opens,
    Closes,
}

// A number that is neither a word nor a mark.
#[derive(Clone, Copy, Debug, PartialEq, Eq)]
pub struct NoSymbol(pub u32);

impl TryFrom<u32> for Symbol {
    type Error = NoSymbol;

    fn try_from(number: u32) -> Result<Symbol, NoSymbol> {
        match number {
            0..WORDS => Ok(Symbol::Word(number)),
            AND => Ok(Symbol::And),
            OR => Ok(Symbol::Or),
            NOT => Ok(Symbol::Not),
            OPENS => Ok(Symbol::Opens),
            CLOSES => Ok(Symbol::Closes),
            _ => Err(NoSymbol(number)),
        }
    }
}
