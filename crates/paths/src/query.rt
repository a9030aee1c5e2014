// A question of several terms: an opened archive, and one to eight of its terms.
ghost use Rattle.std.specs.Prelude.{◌≡◌, IfOk, leb, take};
ghost use Rattle.model.specs.Lists.{any};
ghost use Rattle.model.specs.Outcome.{answered};
ghost use Rattle.refusals.specs.Refusals.{outcome_by};
ghost use Rattle.paths.specs.Chosen.{Chosen, Chosen-prop, asking};

use crate::Terms;
use archive::{Archive, Layout};
use refusals::Refusal;

// The question as its walks take it.
#[derive(Clone, Copy)]
pub struct Query<'a, 't> {
    pub archive: Archive<'a>,
    pub terms: &'t [u32],
    pub ghost chosen: { Chosen archive.layout.terms terms.now } by { Chosen-prop archive.layout.terms terms.now },
}

// Whether one of the terms is no term of the archive.
pub fn term_missing(l: Layout, terms: &[u32]) -> bool
    ensures { result ≡ any (leb l.terms) terms.now }
{
    terms.iter().any(|term| l.terms <= *term as usize)
}

// Refusals 10 and 11, which every question of several terms begins with.
pub fn ask<'a, 't>(archive: &Archive<'a>, q: &'t Terms) -> Result<Query<'a, 't>, Refusal>
    ensures outcome { outcome_by (λ query. query.terms.now) result
        ≡ asking archive.now.layout.terms q.now.numbers q.now.size (answered (take q.now.size q.now.numbers)) }
    ensures same { IfOk result (λ query. (query.archive.bytes.now ≡ archive.now.bytes.now) × (query.archive.layout ≡ archive.now.layout)
        × (query.terms.now ≡ take q.now.size q.now.numbers)) }
{
    if q.size == 0 || 8 < q.size {
        return Err(Refusal::TermCount);
    }
    let terms = &q.numbers[..q.size as usize];
    if term_missing(archive.layout, terms) {
        return Err(Refusal::Argument);
    }
    Ok(Query {
        archive: *archive,
        terms,
    })
}
