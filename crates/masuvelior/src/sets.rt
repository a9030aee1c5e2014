// The question of a set of documents, whose numbers are in a slice, checked and of an archive opened before.
ghost use Rattle.std.specs.Prelude.{◌≡◌};
ghost use Rattle.model.specs.RankSet.{rank_set_result};
ghost use Rattle.archive.specs.Layout.{IsArchive};
ghost use Rattle.ffi.specs.Left.{given, coded, one};

use ffi::give;

// The count of a set of documents before a place.
#[unsafe(no_mangle)]
pub extern "C" fn masuvelior_rank_set(
    archive: &[u8],
    set: &[u32],
    place: u32,
    count: &mut u32,
) -> u32
    ensures { coded result (one count.new) ≡ given one (rank_set_result archive.now set.now place) (one count.old) }
{
    give::number(rank_set::rank_set(archive, set, place), count)
}

#[unsafe(no_mangle)]
pub extern "C" fn masuvelior_opened_rank_set(
    archive: &[u8],
    set: &[u32],
    place: u32,
    count: &mut u32,
) -> u32
    requires { IsArchive archive.now }
    ensures { coded result (one count.new) ≡ given one (rank_set_result archive.now set.now place) (one count.old) }
{
    let opened = archive::reopen(archive);
    give::number(rank_set::rank_set_opened(&opened, set, place), count)
}
