// What the library answers, as it is printed.
use archive::Archive;
use archive_ranges::Entries;
use moves::Ended;
use reader::Sizes;
use refusals::Refusal;
use std::fmt;

#[derive(Clone, Copy, Debug, PartialEq, Eq)]
pub enum Found {
    Number(u32),
    Entries {
        from: u32,
        to: u32,
    },
    Sizes {
        entries: usize,
        documents: usize,
        terms: usize,
    },
    Done {
        listed: u32,
        openings: u32,
    },
    Spent {
        listed: u32,
        allowance: u32,
    },
}

impl fmt::Display for Found {
    fn fmt<W: fmt::Write>(&self, f: &mut fmt::Formatter<W>) -> fmt::Result {
        match self {
            Found::Number(x) => write!(f, "{x}"),
            Found::Entries { from, to } => write!(f, "{from} to {to}"),
            Found::Sizes {
                entries,
                documents,
                terms,
            } => write!(f, "{entries} {documents} {terms}"),
            Found::Done { listed, openings } => write!(f, "done {listed} {openings}"),
            Found::Spent { listed, allowance } => write!(f, "spent {listed} {allowance}"),
        }
    }
}

pub type Outcome = Result<Found, Refusal>;

pub fn answered(answer: Result<u32, Refusal>) -> Outcome {
    Ok(Found::Number(answer?))
}

pub fn ranged(range: Result<Entries, Refusal>) -> Outcome {
    let Entries { from, to } = range?;
    Ok(Found::Entries { from, to })
}

pub fn opened(opening: Result<Archive<'_>, Refusal>) -> Outcome {
    let l = opening?.layout;
    Ok(Found::Sizes {
        entries: l.levels.entries,
        documents: l.documents,
        terms: l.terms,
    })
}

pub fn was_read(reading: Result<Sizes, Refusal>) -> Outcome {
    let read = reading?;
    Ok(Found::Sizes {
        entries: read.entries,
        documents: read.documents,
        terms: read.terms,
    })
}

// The length of the archive.
pub fn written(written: Result<usize, Refusal>) -> Result<u32, Refusal> {
    Ok((written? % 4294967296) as u32)
}

pub fn ended(end: Result<Ended, Refusal>) -> Outcome {
    match end? {
        Ended::Done { listed, openings } => Ok(Found::Done { listed, openings }),
        Ended::Spent { listed, allowance } => Ok(Found::Spent { listed, allowance }),
    }
}
