// Questions of one entry, checked and of an archive opened before.
ghost use Rattle.std.specs.Prelude.{◌≡◌};
ghost use Rattle.model.specs.Queries.{access_result, rank_result, select_result};
ghost use Rattle.archive.specs.Layout.{IsArchive};
ghost use Rattle.ffi.specs.Left.{given, coded, one};

use ffi::give;

// The entry at a place.
#[unsafe(no_mangle)]
pub extern "C" fn masuvelior_access(archive: &[u8], place: u32, document: &mut u32) -> u32
    ensures { coded result (one document.new) ≡ given one (access_result archive.now place) (one document.old) }
{
    give::number(queries::access(archive, place), document)
}

#[unsafe(no_mangle)]
pub extern "C" fn masuvelior_opened_access(archive: &[u8], place: u32, document: &mut u32) -> u32
    requires { IsArchive archive.now }
    ensures { coded result (one document.new) ≡ given one (access_result archive.now place) (one document.old) }
{
    let opened = archive::reopen(archive);
    give::number(queries::access_opened(&opened, place), document)
}

// The count of a document before a place.
#[unsafe(no_mangle)]
pub extern "C" fn masuvelior_rank(archive: &[u8], document: u32, place: u32, count: &mut u32) -> u32
    ensures { coded result (one count.new) ≡ given one (rank_result archive.now document place) (one count.old) }
{
    give::number(queries::rank(archive, document, place), count)
}

#[unsafe(no_mangle)]
pub extern "C" fn masuvelior_opened_rank(
    archive: &[u8],
    document: u32,
    place: u32,
    count: &mut u32,
) -> u32
    requires { IsArchive archive.now }
    ensures { coded result (one count.new) ≡ given one (rank_result archive.now document place) (one count.old) }
{
    let opened = archive::reopen(archive);
    give::number(queries::rank_opened(&opened, document, place), count)
}

// The place of the j-th entry of a document; n where it has fewer.
#[unsafe(no_mangle)]
pub extern "C" fn masuvelior_select(archive: &[u8], document: u32, j: u32, place: &mut u32) -> u32
    ensures { coded result (one place.new) ≡ given one (select_result archive.now document j) (one place.old) }
{
    give::number(queries::select(archive, document, j), place)
}

#[unsafe(no_mangle)]
pub extern "C" fn masuvelior_opened_select(
    archive: &[u8],
    document: u32,
    j: u32,
    place: &mut u32,
) -> u32
    requires { IsArchive archive.now }
    ensures { coded result (one place.new) ≡ given one (select_result archive.now document j) (one place.old) }
{
    let opened = archive::reopen(archive);
    give::number(queries::select_opened(&opened, document, j), place)
}
