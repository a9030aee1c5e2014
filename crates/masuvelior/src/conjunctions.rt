// Conjunctions of the terms in a slice, checked and of an archive opened before.
ghost use Rattle.std.specs.Prelude.{◌≡◌, length};
ghost use Rattle.model.specs.Queries.{conjunction_result};
ghost use Rattle.archive.specs.Layout.{IsArchive};
ghost use Rattle.ffi.specs.Left.{pairs_left, one, left};

use ffi::{give, terms_of};

// The documents under each of the chosen terms.
#[unsafe(no_mangle)]
pub extern "C" fn masuvelior_conjunction(
    archive: &[u8],
    chosen: &[u32],
    answers: &mut [u32],
    listed: &mut u32,
) -> u32
    ensures { left result (one listed.new) (one answers.new)
        ≡ pairs_left (conjunction_result archive.now chosen.now (length chosen.now) answers.old)
        (one listed.old) }
{
    give::number(
        conjunction::conjunction(archive, terms_of(chosen), answers),
        listed,
    )
}

#[unsafe(no_mangle)]
pub extern "C" fn masuvelior_opened_conjunction(
    archive: &[u8],
    chosen: &[u32],
    answers: &mut [u32],
    listed: &mut u32,
) -> u32
    requires { IsArchive archive.now }
    ensures { left result (one listed.new) (one answers.new)
        ≡ pairs_left (conjunction_result archive.now chosen.now (length chosen.now) answers.old)
        (one listed.old) }
{
    let opened = archive::reopen(archive);
    give::number(
        conjunction::conjunction_opened(&opened, terms_of(chosen), answers),
        listed,
    )
}
