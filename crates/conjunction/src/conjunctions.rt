// Conjunction: the documents with an entry under each of several terms, ascending, with the sum of their counts.
ghost use Rattle.std.specs.Prelude.{◌≡◌, ◌*◌, ◌≤◌, length};
ghost use Rattle.model.specs.Opening.{contents};
ghost use Rattle.model.specs.Distinct.{Different};
ghost use Rattle.model.specs.Queries as model;
ghost use Rattle.answers.specs.Answers.{pairs_of};
ghost use Rattle.answers.specs.Written.{Lists};

use crate::common::next_common;
use answers::put_pair;
use archive::{Archive, open};
use distinct_terms::distinct;
use paths::{Query, Terms, ask};
use refusals::Refusal;

// The pairs go into the front of the answers; how many. The walk ends as soon as one term has no further document. No term is repeated.
pub fn conjunction_in(query: &Query<'_, '_>, answers: &mut [u32]) -> usize
    requires { (2 * query.now.archive.layout.documents ≤ length answers.old) × Different query.now.terms.now }
    ensures { Lists (model.conjunction (contents query.now.archive.bytes.now) query.now.terms.now) result answers.old answers.new }
{
    let mut path = [0u32; 468];
    query.put_root(&mut path);
    let mut found: usize = 0;
    let mut at: usize = 0;
    loop {
        let Some(next) = next_common(query, at, &mut path) else {
            return found;
        };
        put_pair(answers, found, next.document, next.count);
        found += 1;
        at = next.document + 1;
    }
}

pub fn conjunction_opened(
    archive: &Archive<'_>,
    q: Terms,
    answers: &mut [u32],
) -> Result<u32, Refusal>
    ensures { pairs_of result answers.new ≡ model.conjunction_result archive.now.bytes.now q.numbers q.size answers.old }
{
    let given = ask(archive, &q)?;
    if answers.len() < 2 * archive.layout.documents {
        return Err(Refusal::AnswerSlice);
    }
    let kept = distinct(given.terms);
    let query = Query {
        archive: given.archive,
        terms: kept.as_slice(),
    };
    Ok(conjunction_in(&query, answers) as u32)
}

pub fn conjunction(archive: &[u8], q: Terms, answers: &mut [u32]) -> Result<u32, Refusal>
    ensures { pairs_of result answers.new ≡ model.conjunction_result archive.now q.numbers q.size answers.old }
{
    let opened = open(archive)?;
    conjunction_opened(&opened, q, answers)
}
