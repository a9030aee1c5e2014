// The writer: refusals 14 to 17, then the header, the term table, and the levels.
ghost use Rattle.std.specs.Prelude.{◌≡◌, ◌≤◌, ◌<◌, length, leb};
ghost use Rattle.bits.specs.Bits.{sum};
ghost use Rattle.model.specs.Lists.{any, overwrite};
ghost use Rattle.model.specs.Format.{library, encode, write_result};
ghost use Rattle.writer.specs.Writing.{Writable, written_is};

use crate::put::{put_header, put_table};
use crate::rows::write_rows;
use archive::{Layout, archive_length, layout_of, within_limits};
use refusals::Refusal;

// Writes the archive of a library that may be written.
fn write_archive(entries: &[u32], lengths: &[u32], l: Layout, target: &mut [u8])
    requires { Writable (library l.documents lengths.now entries.now) l target.old }
    ensures { target.new ≡ overwrite (encode (library l.documents lengths.now entries.now)) target.old }
{
    put_header(l, target);
    put_table(lengths, target);
    write_rows(entries, l.levels, target);
}

// Whether an entry is N or more.
fn beyond(entries: &[u32], documents: u32) -> bool
    ensures { result ≡ any (leb documents) entries.now }
{
    entries.iter().any(|d| documents <= *d)
}

// The sum of the term lengths, which need not fit 32 bits.
fn total(lengths: &[u32]) -> usize
    requires { length lengths.now ≤ 4096 }
    ensures { result ≡ sum lengths.now }
{
    lengths.iter().map(|m| *m as usize).sum()
}

// Writes the archive of a library into the front of the target, and answers its length.
pub fn write(
    entries: &[u32],
    lengths: &[u32],
    documents: u32,
    target: &mut [u8],
) -> Result<usize, Refusal>
    ensures { written_is result target.new ≡ write_result (library documents lengths.now entries.now) target.old }
{
    let n = entries.len();
    let terms = lengths.len();
    if !within_limits(n, documents as usize, terms) {
        return Err(Refusal::WriterLimits);
    }
    if beyond(entries, documents) {
        return Err(Refusal::WriterEntry);
    }
    if total(lengths) != n {
        return Err(Refusal::WriterLengths);
    }
    let l = layout_of(n, documents as usize, terms);
    let size = archive_length(l);
    if target.len() < size {
        return Err(Refusal::WriterTarget);
    }
    write_archive(entries, lengths, l, target);
    Ok(size)
}
