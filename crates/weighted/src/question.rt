// The question for weighted top-k, with its refusals. A refusal writes nothing.
// A name that ends in `_opened` is the question of an archive that was opened before.
ghost use Rattle.std.specs.Prelude.{◌≡◌, length};
ghost use Rattle.model.specs.Weighted.{weighted_result};
ghost use Rattle.moves.specs.Results.{top_k_is};

use crate::run::weighted_in;
use archive::{Archive, open};
use moves::Ended;
use paths::{Query, Terms, ask};
use rarest_first::rarest_first_in;
use refusals::Refusal;

pub fn weighted_opened(
    archive: &Archive<'_>,
    q: Terms,
    k: u32,
    allowance: u32,
    answers: &mut [u32],
    work: &mut [u32],
) -> Result<Ended, Refusal>
    ensures { top_k_is result answers.new work.new
        ≡ weighted_result archive.now.bytes.now q.numbers q.size k allowance answers.old work.old }
{
    let given = ask(archive, &q)?;
    if answers.len() < 2 * (k as usize).min(archive.layout.documents) {
        return Err(Refusal::AnswerSlice);
    }
    if work.len() < 4 * archive.layout.documents {
        return Err(Refusal::WorkSlice);
    }
    let order = rarest_first_in(&given);
    let query = Query {
        archive: given.archive,
        terms: order.as_slice(),
    };
    Ok(weighted_in(&query, k, allowance, answers, work))
}

pub fn weighted(
    archive: &[u8],
    q: Terms,
    k: u32,
    allowance: u32,
    answers: &mut [u32],
    work: &mut [u32],
) -> Result<Ended, Refusal>
    ensures { top_k_is result answers.new work.new
        ≡ weighted_result archive.now q.numbers q.size k allowance answers.old work.old }
{
    let opened = open(archive)?;
    weighted_opened(&opened, q, k, allowance, answers, work)
}
