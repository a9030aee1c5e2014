// What the library answers, as the plain side says it.
use archive_ranges::Entries;
use moves::Ended;
use plain::outcome::{Found, Refusal};

// The plain side has refusals of its own, by the same numbers.
pub fn refused(refusal: refusals::Refusal) -> Refusal {
    Refusal::from(u32::from(refusal))
}

pub fn answered(answer: Result<u32, refusals::Refusal>) -> Result<Found, Refusal> {
    match answer {
        Ok(x) => Ok(Found::Number(x)),
        Err(refusal) => Err(refused(refusal)),
    }
}

pub fn ranged(range: Result<Entries, refusals::Refusal>) -> Result<Found, Refusal> {
    match range {
        Ok(Entries { from, to }) => Ok(Found::Bounds { from, to }),
        Err(refusal) => Err(refused(refusal)),
    }
}

pub fn ended(end: Result<Ended, refusals::Refusal>) -> Result<Found, Refusal> {
    match end {
        Ok(Ended::Done { listed, openings }) => Ok(Found::Done { listed, openings }),
        Ok(Ended::Spent { listed, allowance }) => Ok(Found::Spent { listed, allowance }),
        Err(refusal) => Err(refused(refusal)),
    }
}
