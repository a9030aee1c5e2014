// What the library answers of a whole archive, as the plain side says it.
use archive::Archive;
use plain::outcome::{Found, Refusal, Sizes};
use trials::answered::refused;

// No archive or list here has 2^32.
fn low(size: usize) -> u32 {
    (size % 4294967296) as u32
}

fn sizes(n: usize, documents: usize, terms: usize) -> Found {
    Found::Sizes(Sizes {
        n: low(n),
        documents: low(documents),
        terms: low(terms),
    })
}

pub fn written(written: Result<usize, refusals::Refusal>) -> Result<Found, Refusal> {
    match written {
        Ok(size) => Ok(Found::Number(low(size))),
        Err(refusal) => Err(refused(refusal)),
    }
}

pub fn opened(opening: Result<Archive<'_>, refusals::Refusal>) -> Result<Found, Refusal> {
    match opening {
        Ok(archive) => {
            let l = archive.layout;
            Ok(sizes(l.levels.entries, l.documents, l.terms))
        }
        Err(refusal) => Err(refused(refusal)),
    }
}

pub fn was_read(reading: Result<reader::Sizes, refusals::Refusal>) -> Result<Found, Refusal> {
    match reading {
        Ok(read) => Ok(sizes(read.entries, read.documents, read.terms)),
        Err(refusal) => Err(refused(refusal)),
    }
}
