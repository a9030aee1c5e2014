// Top-k, checked and of an archive opened before.
ghost use Rattle.std.specs.Prelude.{◌≡◌};
ghost use Rattle.model.specs.Queries.{of_entries, of_terms};
ghost use Rattle.model.specs.TopK.{greedy_result, probing_result};
ghost use Rattle.archive.specs.Layout.{IsArchive};
ghost use Rattle.ffi.specs.Left.{ended, search_left, one, two, three, left};

use ffi::give;

// Greedy top-k of a range of entries.
#[unsafe(no_mangle)]
pub extern "C" fn masuvelior_greedy_entries(
    archive: &[u8],
    a: u32,
    b: u32,
    k: u32,
    allowance: u32,
    answers: &mut [u32],
    work: &mut [u32],
    listed: &mut u32,
    spent: &mut u32,
    number: &mut u32,
) -> u32
    ensures { left result (three listed.new spent.new number.new) (two answers.new work.new)
        ≡ search_left ended (greedy_result archive.now (of_entries a b) k allowance answers.old work.old)
        (three listed.old spent.old number.old) }
{
    let answer = top_k::greedy_entries(archive, a, b, k, allowance, answers, work);
    give::top_k(answer, listed, spent, number)
}

#[unsafe(no_mangle)]
pub extern "C" fn masuvelior_opened_greedy_entries(
    archive: &[u8],
    a: u32,
    b: u32,
    k: u32,
    allowance: u32,
    answers: &mut [u32],
    work: &mut [u32],
    listed: &mut u32,
    spent: &mut u32,
    number: &mut u32,
) -> u32
    requires { IsArchive archive.now }
    ensures { left result (three listed.new spent.new number.new) (two answers.new work.new)
        ≡ search_left ended (greedy_result archive.now (of_entries a b) k allowance answers.old work.old)
        (three listed.old spent.old number.old) }
{
    let opened = archive::reopen(archive);
    let answer = top_k::greedy_entries_opened(&opened, a, b, k, allowance, answers, work);
    give::top_k(answer, listed, spent, number)
}

// Greedy top-k of a range of terms.
#[unsafe(no_mangle)]
pub extern "C" fn masuvelior_greedy_terms(
    archive: &[u8],
    first: u32,
    last: u32,
    k: u32,
    allowance: u32,
    answers: &mut [u32],
    work: &mut [u32],
    listed: &mut u32,
    spent: &mut u32,
    number: &mut u32,
) -> u32
    ensures { left result (three listed.new spent.new number.new) (two answers.new work.new)
        ≡ search_left ended (greedy_result archive.now (of_terms first last) k allowance answers.old work.old)
        (three listed.old spent.old number.old) }
{
    let answer = top_k::greedy_terms(archive, first, last, k, allowance, answers, work);
    give::top_k(answer, listed, spent, number)
}

#[unsafe(no_mangle)]
pub extern "C" fn masuvelior_opened_greedy_terms(
    archive: &[u8],
    first: u32,
    last: u32,
    k: u32,
    allowance: u32,
    answers: &mut [u32],
    work: &mut [u32],
    listed: &mut u32,
    spent: &mut u32,
    number: &mut u32,
) -> u32
    requires { IsArchive archive.now }
    ensures { left result (three listed.new spent.new number.new) (two answers.new work.new)
        ≡ search_left ended (greedy_result archive.now (of_terms first last) k allowance answers.old work.old)
        (three listed.old spent.old number.old) }
{
    let opened = archive::reopen(archive);
    let answer = top_k::greedy_terms_opened(&opened, first, last, k, allowance, answers, work);
    give::top_k(answer, listed, spent, number)
}

// Probing top-k of a range of entries.
#[unsafe(no_mangle)]
pub extern "C" fn masuvelior_probing_entries(
    archive: &[u8],
    a: u32,
    b: u32,
    k: u32,
    answers: &mut [u32],
    work: &mut [u32],
    listed: &mut u32,
) -> u32
    ensures { left result (one listed.new) (two answers.new work.new)
        ≡ search_left one (probing_result archive.now (of_entries a b) k answers.old work.old)
        (one listed.old) }
{
    let answer = top_k::probing_entries(archive, a, b, k, answers, work);
    give::number(answer, listed)
}

#[unsafe(no_mangle)]
pub extern "C" fn masuvelior_opened_probing_entries(
    archive: &[u8],
    a: u32,
    b: u32,
    k: u32,
    answers: &mut [u32],
    work: &mut [u32],
    listed: &mut u32,
) -> u32
    requires { IsArchive archive.now }
    ensures { left result (one listed.new) (two answers.new work.new)
        ≡ search_left one (probing_result archive.now (of_entries a b) k answers.old work.old)
        (one listed.old) }
{
    let opened = archive::reopen(archive);
    let answer = top_k::probing_entries_opened(&opened, a, b, k, answers, work);
    give::number(answer, listed)
}

// Probing top-k of a range of terms.
#[unsafe(no_mangle)]
pub extern "C" fn masuvelior_probing_terms(
    archive: &[u8],
    first: u32,
    last: u32,
    k: u32,
    answers: &mut [u32],
    work: &mut [u32],
    listed: &mut u32,
) -> u32
    ensures { left result (one listed.new) (two answers.new work.new)
        ≡ search_left one (probing_result archive.now (of_terms first last) k answers.old work.old)
        (one listed.old) }
{
    let answer = top_k::probing_terms(archive, first, last, k, answers, work);
    give::number(answer, listed)
}

#[unsafe(no_mangle)]
pub extern "C" fn masuvelior_opened_probing_terms(
    archive: &[u8],
    first: u32,
    last: u32,
    k: u32,
    answers: &mut [u32],
    work: &mut [u32],
    listed: &mut u32,
) -> u32
    requires { IsArchive archive.now }
    ensures { left result (one listed.new) (two answers.new work.new)
        ≡ search_left one (probing_result archive.now (of_terms first last) k answers.old work.old)
        (one listed.old) }
{
    let opened = archive::reopen(archive);
    let answer = top_k::probing_terms_opened(&opened, first, last, k, answers, work);
    give::number(answer, listed)
}
