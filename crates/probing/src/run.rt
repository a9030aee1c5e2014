// Probing, after document 004, section 4.2: documents at ranks of the range are marked in the work slice and entered among
// the candidates, round by round, until these are the full list.
ghost use Rattle.std.specs.Prelude.{◌≡◌, ◌-◌, ◌*◌, ◌^◌, ◌≤◌, ◌<◌, min, length, drop};
ghost use Rattle.model.specs.Lists.{overwrite};
ghost use Rattle.model.specs.Outcome.{answered};
ghost use Rattle.bits.specs.Sequences.{occurrences};
ghost use Rattle.model.specs.Queries.{flat, pairs_in, quantile};
ghost use Rattle.model.specs.TopK.{full_list, found_into};
ghost use Rattle.model.specs.Probing.{unseen, probe, Held, Swept};
ghost use Rattle.probing.specs.Candidates.{SameSlice};
ghost use Rattle.probing.specs.Slices.{marked, Lent, Kept, state_in};
ghost use Rattle.search.specs.Sought.{range_of};
ghost use Rattle.probing.specs.Full.{listed_is, full_in};

use crate::candidates::{Candidate, Candidates};
use crate::rounds::first_step;
use search::{Search, clear, finish};
use std::cmp::Reverse;

// The document of rank r in the range, with its count there.
fn at_rank(s: &Search<'_>, r: usize) -> Candidate
    requires { r < s.now.b - s.now.a }
    ensures document { (result.document ≡ quantile r (range_of s.now)) × (result.document < s.now.documents) }
    ensures count { result.count.0 ≡ occurrences result.document (range_of s.now) }
{
    let found = s.tree.quantile(s.a, s.b, r);
    Candidate {
        count: Reverse(found.count as u32),
        document: found.document as u32,
    }
}

// Probes rank r: a document that is not marked is marked and entered with its count.
fn probe_at(s: &Search<'_>, r: usize, candidates: &mut Candidates<'_>, work: &mut [u32])
    requires rank { r < s.now.b - s.now.a }
    requires lent { Lent s.now.documents candidates.old.k (range_of s.now) work.old candidates.old.answers.now }
    requires held { Held s.now.documents candidates.old.k (range_of s.now) (marked s.now.documents work.old) (pairs_in candidates.old.answers.now candidates.old.held) }
    ensures result_after { state_in s.now.documents work.new candidates.new.answers.now candidates.new.held
        ≡ probe candidates.old.k (range_of s.now) r (state_in s.now.documents work.old candidates.old.answers.now candidates.old.held) }
    ensures kept { Kept s.now.documents candidates.old.held candidates.new.held work.old candidates.old.answers.now work.new candidates.new.answers.now }
    ensures same { SameSlice candidates.old candidates.new }
{
    let p = at_rank(s, r);
    let d = p.document as usize;
    if work[d] == 1 {
        return;
    }
    work[d] = 1;
    candidates.enter(p);
}

// The round with step g: the ranks g - 1, 3 * g - 1, 5 * g - 1, .. of the range.
fn sweep(s: &Search<'_>, g: usize, candidates: &mut Candidates<'_>, work: &mut [u32])
    requires step { (0 < g) × (g < 2 ^ 16) }
    requires lent { Lent s.now.documents candidates.old.k (range_of s.now) work.old candidates.old.answers.now }
    requires swept { Swept s.now.documents candidates.old.k (range_of s.now) (2 * g) (marked s.now.documents work.old) (pairs_in candidates.old.answers.now candidates.old.held) }
    ensures swept_2 { Swept s.now.documents candidates.old.k (range_of s.now) g (marked s.now.documents work.new) (pairs_in candidates.new.answers.now candidates.new.held) }
    ensures kept { Kept s.now.documents candidates.old.held candidates.new.held work.old candidates.old.answers.now work.new candidates.new.answers.now }
    ensures same { SameSlice candidates.old candidates.new }
{
    for r in (g - 1..s.b - s.a).step_by(2 * g) {
        probe_at(s, r, candidates, work);
    }
}

// All rounds, over a work slice that marks no document: the full list in the answer slice. Answers how many pairs it has.
fn full_list(s: &Search<'_>, k: usize, answers: &mut [u32], work: &mut [u32]) -> usize
    requires documents_in_bounds { (s.now.documents ≤ length work.old) × (2 * min k s.now.documents ≤ length answers.old) }
    requires work_value { marked s.now.documents work.old ≡ unseen }
    ensures value { result ≡ length (full_list s.now.documents k (range_of s.now)) }
    ensures answers_after { answers.new ≡ overwrite (flat (full_list s.now.documents k (range_of s.now))) answers.old }
    ensures work_unchanged { drop s.now.documents work.new ≡ drop s.now.documents work.old }
{
    if k == 0 {
        return 0;
    }
    let mut g = first_step(s.b - s.a);
    let mut candidates = Candidates {
        answers,
        held: 0,
        k,
    };
    sweep(s, g, &mut candidates, work);
    // round by round, as long as an unseen document may be missing: no index is counted
    while candidates.goes_on(g) {
        g = g / 2;
        sweep(s, g, &mut candidates, work);
    }
    candidates.held
}

// Probing top-k of a range: the pairs in the answer slice, and the first 4 * N numbers of the work slice 0.
pub fn probing(s: &Search<'_>, k: u32, answers: &mut [u32], work: &mut [u32]) -> usize
    requires documents_in_bounds { (2 * min k s.now.documents ≤ length answers.old) × (4 * s.now.documents ≤ length work.old) }
    ensures { listed_is result answers.new work.new
        ≡ found_into answers.old work.old (answered (full_in s.now k)) }
{
    clear(work, s.documents);
    let n = full_list(s, k as usize, answers, work);
    finish(s.documents, work);
    n
}
