// Questions with and, or, not, whose numbers are in a slice, checked and of an archive opened before.
ghost use Rattle.std.specs.Prelude.{◌≡◌};
ghost use Rattle.model.specs.Boolean.{boolean_result};
ghost use Rattle.archive.specs.Layout.{IsArchive};
ghost use Rattle.ffi.specs.Left.{pairs_left, one, left};

use ffi::give;

// The documents that match the question, one number each.
#[unsafe(no_mangle)]
pub extern "C" fn masuvelior_boolean(
    archive: &[u8],
    question: &[u16],
    answers: &mut [u32],
    listed: &mut u32,
) -> u32
    ensures { left result (one listed.new) (one answers.new)
        ≡ pairs_left (boolean_result archive.now question.now answers.old) (one listed.old) }
{
    give::number(boolean::boolean(archive, question, answers), listed)
}

#[unsafe(no_mangle)]
pub extern "C" fn masuvelior_opened_boolean(
    archive: &[u8],
    question: &[u16],
    answers: &mut [u32],
    listed: &mut u32,
) -> u32
    requires { IsArchive archive.now }
    ensures { left result (one listed.new) (one answers.new)
        ≡ pairs_left (boolean_result archive.now question.now answers.old) (one listed.old) }
{
    let opened = archive::reopen(archive);
    give::number(boolean::boolean_opened(&opened, question, answers), listed)
}
