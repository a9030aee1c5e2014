// The writer, the check on opening and the reader, beside the plain bytes and the list.
use crate::answered::{opened, was_read, written};
use plain::archive::length_of;
use plain::outcome::{Found, Kind, Refusal, question_of};
use trials::differences::Tally;
use trials::library::{Library, front};
use trials::random::{draw, room};

// Writes the first n entries and W lengths, with the first so many bytes of a target lent.
fn write_into(l: Library, lent: u32, target: &mut [u8]) -> Result<Found, Refusal> {
    let target = target.get_mut(..lent as usize).ok_or(Refusal::Unlent)?;
    let entries = front(l.entries, l.sizes.n);
    let lengths = front(l.lengths, l.sizes.terms);
    written(writer::write(entries, lengths, l.sizes.documents, target))
}

// Writes beside the plain bytes, with a given room. The target holds the given byte at first.
pub fn write(l: Library, lent: u32, junk: u8, target: &mut [u8], made: &mut Tally) {
    let mut plain = [junk; 137400];
    let expected = plain::archive::write(l.entries, l.lengths, l.sizes, lent, &mut plain);
    let found = write_into(l, lent, target);
    let alike = plain.starts_with(target);
    made.compare(question_of(Kind::Write, lent, 0, 0), found, expected, alike);
}

// A target that is one byte too short.
pub fn write_short(l: Library, made: &mut Tally) {
    let mut target = [77u8; 137400];
    let lent = length_of(l.sizes).wrapping_sub(1);
    write(l, lent, 77, &mut target, made);
}

// A small library with its archive, which is written into the front of a target.
pub fn write_small<'a>(l: Library<'a>, target: &'a mut [u8], made: &mut Tally) -> Library<'a> {
    let size = length_of(l.sizes);
    write(l, size, 0, target, made);
    Library {
        archive: target.get(..size as usize).unwrap_or_default(),
        ..l
    }
}

pub fn open(l: Library, made: &mut Tally) {
    let found = opened(archive::open(l.archive));
    let expected = Ok(Found::Sizes(l.sizes));
    made.compare(question_of(Kind::Open, 0, 0, 0), found, expected, true);
}

// Reads with the first so many numbers of either list lent.
fn read_into(
    archive: &[u8],
    n: u32,
    terms: u32,
    entries: &mut [u32],
    lengths: &mut [u32],
) -> Result<Found, Refusal> {
    let entries = entries.get_mut(..n as usize).ok_or(Refusal::Unlent)?;
    let lengths = lengths.get_mut(..terms as usize).ok_or(Refusal::Unlent)?;
    was_read(reader::read(archive, entries, lengths))
}

fn copy(from: &[u32], to: &mut [u32]) {
    for (x, y) in from.iter().zip(to.iter_mut()) {
        *y = *x;
    }
}

// What the reader is to give with so much room, and to write into the two lists.
fn plain_read(
    l: Library,
    n: u32,
    terms: u32,
    entries: &mut [u32],
    lengths: &mut [u32],
) -> Result<Found, Refusal> {
    if n < l.sizes.n || terms < l.sizes.terms {
        return Err(Refusal::AnswerSlice);
    }
    copy(front(l.entries, l.sizes.n), entries);
    copy(front(l.lengths, l.sizes.terms), lengths);
    Ok(Found::Sizes(l.sizes))
}

// Reads the archive back, into lists that are long enough, longer, or one short.
pub fn read(l: Library, seed: u32, made: &mut Tally) {
    let junk = draw(seed, 1);
    let mut entries = [junk; 65544];
    let mut plain_entries = [junk; 65544];
    let mut lengths = [junk; 4104];
    let mut plain_lengths = [junk; 4104];
    let n = room(draw(seed, 2), l.sizes.n);
    let terms = room(draw(seed, 3), l.sizes.terms);
    let found = read_into(l.archive, n, terms, &mut entries, &mut lengths);
    let expected = plain_read(l, n, terms, &mut plain_entries, &mut plain_lengths);
    let alike = entries == plain_entries && lengths == plain_lengths;
    made.compare(question_of(Kind::Read, n, terms, 0), found, expected, alike);
}
