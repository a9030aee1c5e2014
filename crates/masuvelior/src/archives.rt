// The archive itself: the check on opening, the length, the writer and the reader.
ghost use Rattle.std.specs.Prelude.{◌≡◌};
ghost use Rattle.model.specs.Format.{library, write_result};
ghost use Rattle.model.specs.Opening.{opening, read_result};
ghost use Rattle.refusals.specs.Refusals.{outcome_by};
ghost use Rattle.archive.specs.Layout.{IsArchive};
ghost use Rattle.ffi.specs.Left.{given, sizes, write_left, read_left, coded, one, two, three, left};
ghost use Rattle.masuvelior.specs.Length.{length_result};

use ffi::give;
use reader::Sizes;
use refusals::Refusal;

// The check on opening.
#[unsafe(no_mangle)]
pub extern "C" fn masuvelior_open(
    archive: &[u8],
    n: &mut u32,
    documents: &mut u32,
    terms: &mut u32,
) -> u32
    ensures { coded result (three n.new documents.new terms.new)
        ≡ given sizes (opening archive.now) (three n.old documents.old terms.old) }
{
    match archive::open(archive) {
        Ok(opened) => {
            let l = opened.layout;
            let read = Sizes {
                entries: l.levels.entries,
                documents: l.documents,
                terms: l.terms,
            };
            give::sizes(Ok(read), n, documents, terms)
        }
        Err(refusal) => u32::from(refusal),
    }
}

// The length of an archive of so many entries, documents and terms.
fn length_of(n: u32, documents: u32, terms: u32) -> Result<usize, Refusal>
    ensures { outcome_by (λ x. x) result ≡ length_result (record { entries = n; documents = documents; terms = terms }) }
{
    let entries = n as usize;
    let d = documents as usize;
    let w = terms as usize;
    if !archive::within_limits(entries, d, w) {
        return Err(Refusal::WriterLimits);
    }
    Ok(archive::archive_length(archive::layout_of(entries, d, w)))
}

// The length of an archive.
#[unsafe(no_mangle)]
pub extern "C" fn masuvelior_archive_length(
    n: u32,
    documents: u32,
    terms: u32,
    length: &mut usize,
) -> u32
    ensures { coded result (one length.new)
        ≡ given one (length_result (record { entries = n; documents = documents; terms = terms })) (one length.old) }
{
    give::number(length_of(n, documents, terms), length)
}

// The writer.
#[unsafe(no_mangle)]
pub extern "C" fn masuvelior_write(
    entries: &[u32],
    lengths: &[u32],
    documents: u32,
    target: &mut [u8],
    length: &mut usize,
) -> u32
    ensures { left result (one length.new) (one target.new)
        ≡ write_left (write_result (library documents lengths.now entries.now) target.old)
        (one length.old) }
{
    let answer = writer::write(entries, lengths, documents, target);
    give::number(answer, length)
}

// The reader.
#[unsafe(no_mangle)]
pub extern "C" fn masuvelior_read(
    archive: &[u8],
    entries: &mut [u32],
    lengths: &mut [u32],
    n: &mut u32,
    documents: &mut u32,
    terms: &mut u32,
) -> u32
    ensures { left result (three n.new documents.new terms.new) (two entries.new lengths.new)
        ≡ read_left (read_result archive.now entries.old lengths.old)
        (three n.old documents.old terms.old) }
{
    let answer = reader::read(archive, entries, lengths);
    give::sizes(answer, n, documents, terms)
}

#[unsafe(no_mangle)]
pub extern "C" fn masuvelior_opened_read(
    archive: &[u8],
    entries: &mut [u32],
    lengths: &mut [u32],
    n: &mut u32,
    documents: &mut u32,
    terms: &mut u32,
) -> u32
    requires { IsArchive archive.now }
    ensures { left result (three n.new documents.new terms.new) (two entries.new lengths.new)
        ≡ read_left (read_result archive.now entries.old lengths.old)
        (three n.old documents.old terms.old) }
{
    let opened = archive::reopen(archive);
    let answer = reader::read_opened(&opened, entries, lengths);
    give::sizes(answer, n, documents, terms)
}
