// Questions of a range, in either form, checked and of an archive opened before; and the rate.
ghost use Rattle.std.specs.Prelude.{◌≡◌};
ghost use Rattle.model.specs.Queries.{of_entries, of_terms, range_result, quantile_result, list_result, per_mille_result};
ghost use Rattle.archive.specs.Layout.{IsArchive};
ghost use Rattle.ffi.specs.Left.{given, ends, pairs_left, coded, one, two, left};

use ffi::give;

// The document of a rank in a range of entries.
#[unsafe(no_mangle)]
pub extern "C" fn masuvelior_quantile(
    archive: &[u8],
    a: u32,
    b: u32,
    rank: u32,
    document: &mut u32,
) -> u32
    ensures { coded result (one document.new)
        ≡ given one (quantile_result archive.now (of_entries a b) rank) (one document.old) }
{
    give::number(queries::quantile(archive, a, b, rank), document)
}

#[unsafe(no_mangle)]
pub extern "C" fn masuvelior_opened_quantile(
    archive: &[u8],
    a: u32,
    b: u32,
    rank: u32,
    document: &mut u32,
) -> u32
    requires { IsArchive archive.now }
    ensures { coded result (one document.new)
        ≡ given one (quantile_result archive.now (of_entries a b) rank) (one document.old) }
{
    let opened = archive::reopen(archive);
    give::number(queries::quantile_opened(&opened, a, b, rank), document)
}

// The document of a rank in a range of terms.
#[unsafe(no_mangle)]
pub extern "C" fn masuvelior_quantile_terms(
    archive: &[u8],
    first: u32,
    last: u32,
    rank: u32,
    document: &mut u32,
) -> u32
    ensures { coded result (one document.new)
        ≡ given one (quantile_result archive.now (of_terms first last) rank) (one document.old) }
{
    give::number(
        queries::quantile_terms(archive, first, last, rank),
        document,
    )
}

#[unsafe(no_mangle)]
pub extern "C" fn masuvelior_opened_quantile_terms(
    archive: &[u8],
    first: u32,
    last: u32,
    rank: u32,
    document: &mut u32,
) -> u32
    requires { IsArchive archive.now }
    ensures { coded result (one document.new)
        ≡ given one (quantile_result archive.now (of_terms first last) rank) (one document.old) }
{
    let opened = archive::reopen(archive);
    give::number(
        queries::quantile_terms_opened(&opened, first, last, rank),
        document,
    )
}

// The documents of a range of entries with their counts.
#[unsafe(no_mangle)]
pub extern "C" fn masuvelior_list(
    archive: &[u8],
    a: u32,
    b: u32,
    answers: &mut [u32],
    listed: &mut u32,
) -> u32
    ensures { left result (one listed.new) (one answers.new)
        ≡ pairs_left (list_result archive.now (of_entries a b) answers.old) (one listed.old) }
{
    give::number(listing::list(archive, a, b, answers), listed)
}

#[unsafe(no_mangle)]
pub extern "C" fn masuvelior_opened_list(
    archive: &[u8],
    a: u32,
    b: u32,
    answers: &mut [u32],
    listed: &mut u32,
) -> u32
    requires { IsArchive archive.now }
    ensures { left result (one listed.new) (one answers.new)
        ≡ pairs_left (list_result archive.now (of_entries a b) answers.old) (one listed.old) }
{
    let opened = archive::reopen(archive);
    give::number(listing::list_opened(&opened, a, b, answers), listed)
}

// The documents of a range of terms with their counts.
#[unsafe(no_mangle)]
pub extern "C" fn masuvelior_list_terms(
    archive: &[u8],
    first: u32,
    last: u32,
    answers: &mut [u32],
    listed: &mut u32,
) -> u32
    ensures { left result (one listed.new) (one answers.new)
        ≡ pairs_left (list_result archive.now (of_terms first last) answers.old) (one listed.old) }
{
    give::number(listing::list_terms(archive, first, last, answers), listed)
}

#[unsafe(no_mangle)]
pub extern "C" fn masuvelior_opened_list_terms(
    archive: &[u8],
    first: u32,
    last: u32,
    answers: &mut [u32],
    listed: &mut u32,
) -> u32
    requires { IsArchive archive.now }
    ensures { left result (one listed.new) (one answers.new)
        ≡ pairs_left (list_result archive.now (of_terms first last) answers.old) (one listed.old) }
{
    let opened = archive::reopen(archive);
    give::number(
        listing::list_terms_opened(&opened, first, last, answers),
        listed,
    )
}

// The range of terms as entries.
#[unsafe(no_mangle)]
pub extern "C" fn masuvelior_range_of_terms(
    archive: &[u8],
    first: u32,
    last: u32,
    from: &mut u32,
    to: &mut u32,
) -> u32
    ensures { coded result (two from.new to.new)
        ≡ given ends (range_result archive.now (of_terms first last)) (two from.old to.old) }
{
    give::ends(queries::range_of_terms(archive, first, last), from, to)
}

#[unsafe(no_mangle)]
pub extern "C" fn masuvelior_opened_range_of_terms(
    archive: &[u8],
    first: u32,
    last: u32,
    from: &mut u32,
    to: &mut u32,
) -> u32
    requires { IsArchive archive.now }
    ensures { coded result (two from.new to.new)
        ≡ given ends (range_result archive.now (of_terms first last)) (two from.old to.old) }
{
    let opened = archive::reopen(archive);
    give::ends(archive_ranges::term_range(&opened, first, last), from, to)
}

// The rate.
#[unsafe(no_mangle)]
pub extern "C" fn masuvelior_per_mille(count: u32, size: u32, rate: &mut u32) -> u32
    ensures { coded result (one rate.new) ≡ given one (per_mille_result count size) (one rate.old) }
{
    give::number(queries::per_mille(count, size), rate)
}
