// Weighted top-k of the terms in a slice, checked and of an archive opened before.
ghost use Rattle.std.specs.Prelude.{◌≡◌, length};
ghost use Rattle.model.specs.Weighted.{weighted_result};
ghost use Rattle.archive.specs.Layout.{IsArchive};
ghost use Rattle.ffi.specs.Left.{ended, search_left, two, three, left};

use ffi::{give, terms_of};

// The documents with an entry under some of the chosen terms, by score.
#[unsafe(no_mangle)]
pub extern "C" fn masuvelior_weighted(
    archive: &[u8],
    chosen: &[u32],
    k: u32,
    allowance: u32,
    answers: &mut [u32],
    work: &mut [u32],
    listed: &mut u32,
    spent: &mut u32,
    number: &mut u32,
) -> u32
    ensures { left result (three listed.new spent.new number.new) (two answers.new work.new)
        ≡ search_left ended (weighted_result archive.now chosen.now (length chosen.now) k allowance answers.old work.old)
        (three listed.old spent.old number.old) }
{
    let answer = weighted::weighted(archive, terms_of(chosen), k, allowance, answers, work);
    give::top_k(answer, listed, spent, number)
}

#[unsafe(no_mangle)]
pub extern "C" fn masuvelior_opened_weighted(
    archive: &[u8],
    chosen: &[u32],
    k: u32,
    allowance: u32,
    answers: &mut [u32],
    work: &mut [u32],
    listed: &mut u32,
    spent: &mut u32,
    number: &mut u32,
) -> u32
    requires { IsArchive archive.now }
    ensures { left result (three listed.new spent.new number.new) (two answers.new work.new)
        ≡ search_left ended (weighted_result archive.now chosen.now (length chosen.now) k allowance answers.old work.old)
        (three listed.old spent.old number.old) }
{
    let opened = archive::reopen(archive);
    let answer = weighted::weighted_opened(&opened, terms_of(chosen), k, allowance, answers, work);
    give::top_k(answer, listed, spent, number)
}
