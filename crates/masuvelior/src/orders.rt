// The rarest term first of the terms in a slice, checked and of an archive opened before.
ghost use Rattle.std.specs.Prelude.{◌≡◌, length};
ghost use Rattle.model.specs.RarestFirst.{rarest_first_result};
ghost use Rattle.archive.specs.Layout.{IsArchive};
ghost use Rattle.ffi.specs.Left.{pairs_left, one, left};

use ffi::{give, terms_of};

// The order in which a weighted score of the chosen terms is added up.
#[unsafe(no_mangle)]
pub extern "C" fn masuvelior_rarest_first(
    archive: &[u8],
    chosen: &[u32],
    order: &mut [u32; 8],
    size: &mut u32,
) -> u32
    ensures { left result (one size.new) (one order.new)
        ≡ pairs_left (rarest_first_result archive.now chosen.now (length chosen.now) order.old)
        (one size.old) }
{
    give::number(
        rarest_first::rarest_first(archive, terms_of(chosen), order),
        size,
    )
}

#[unsafe(no_mangle)]
pub extern "C" fn masuvelior_opened_rarest_first(
    archive: &[u8],
    chosen: &[u32],
    order: &mut [u32; 8],
    size: &mut u32,
) -> u32
    requires { IsArchive archive.now }
    ensures { left result (one size.new) (one order.new)
        ≡ pairs_left (rarest_first_result archive.now chosen.now (length chosen.now) order.old)
        (one size.old) }
{
    let opened = archive::reopen(archive);
    give::number(
        rarest_first::rarest_first_opened(&opened, terms_of(chosen), order),
        size,
    )
}
