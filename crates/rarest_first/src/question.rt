// The question for the rarest term first, with its refusals. A refusal writes nothing.
// A name that ends in `_opened` is the question of an archive that was opened before.
ghost use Rattle.std.specs.Prelude.{◌≡◌, length};
ghost use Rattle.model.specs.RarestFirst.{rarest_first_result};
ghost use Rattle.answers.specs.Answers.{pairs_of};

use crate::order::rarest_first_in;
use archive::{Archive, open};
use paths::{Terms, ask};
use refusals::Refusal;

pub fn rarest_first_opened(
    archive: &Archive<'_>,
    q: Terms,
    order: &mut [u32; 8],
) -> Result<u32, Refusal>
    ensures { pairs_of result order.new ≡ rarest_first_result archive.now.bytes.now q.numbers q.size order.old }
{
    let query = ask(archive, &q)?;
    let first = rarest_first_in(&query);
    let numbers = first.numbers;
    *order = numbers;
    Ok(first.size as u32)
}

pub fn rarest_first(archive: &[u8], q: Terms, order: &mut [u32; 8]) -> Result<u32, Refusal>
    ensures { pairs_of result order.new ≡ rarest_first_result archive.now q.numbers q.size order.old }
{
    let opened = open(archive)?;
    rarest_first_opened(&opened, q, order)
}
