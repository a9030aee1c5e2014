// Questions of a whole archive.
use crate::answered::{Outcome, answered, ended, ranged, was_read};
use crate::numbers::Numbers;
use crate::operations::{Lending, Query};
use crate::show;
use std::io::Stdout;

pub fn ask(query: Query, n: Numbers, archive: &[u8], out: Stdout) {
    let found = match query {
        Query::Access => answered(queries::access(archive, n.at(0))),
        Query::Rank => answered(queries::rank(archive, n.at(0), n.at(1))),
        Query::Quantile => answered(queries::quantile(archive, n.at(0), n.at(1), n.at(2))),
        Query::QuantileTerms => answered(queries::quantile_terms(
            archive,
            n.at(0),
            n.at(1),
            n.at(2),
        )),
        Query::PerMille => answered(queries::per_mille(n.at(0), n.at(1))),
        Query::Select => answered(queries::select(archive, n.at(0), n.at(1))),
        Query::RangeOfTerms => ranged(queries::range_of_terms(archive, n.at(0), n.at(1))),
        Query::Boolean => return ask_boolean(n, archive, out),
        Query::RankSet => return ask_rank_set(n, archive, out),
        Query::RarestFirst => return ask_rarest_first(n, archive, out),
        Query::Lent(lending) => return ask_lent(lending, n, archive, out),
    };
    show::outcome(found, out);
}

// boolean ANSWERS 0 SIZE NUMBERS: a question with and, or, not, of so many numbers. It has more numbers than other questions, and its answer is one number
// for each document: at most 70,000 numbers are asked, and 4,100 lent, so that 4,096 documents have room. The lent ones are nines, and are printed after
// the answer.
fn ask_boolean(n: Numbers, archive: &[u8], out: Stdout) {
    let mut question = [0u16; 70000];
    let mut answers = [9u32; 4100];
    let asked = question.get_mut(..n.at(2) as usize);
    let lent = answers.get_mut(..n.at(0) as usize);
    if let (Some(question), Some(answers)) = (asked, lent) {
        put_question(n, question);
        show::outcome(answered(boolean::boolean(archive, question, answers)), out);
        show::lent(answers, out);
    }
}

// The numbers of the line from the fourth on, as 16 bits.
fn put_question(n: Numbers, question: &mut [u16]) {
    for (i, number) in question.iter_mut().enumerate() {
        *number = (n.at(i.saturating_add(3)) % 65536) as u16;
    }
}

// rank_set PLACE SIZE NUMBERS: the count of a set of so many documents before a place.
fn ask_rank_set(n: Numbers, archive: &[u8], out: Stdout) {
    if let Some(set) = n.slice(2, n.at(1)) {
        show::outcome(answered(rank_set::rank_set(archive, set, n.at(0))), out);
    }
}

// What is lent for the order holds nines, and is printed after the answer.
fn ask_rarest_first(n: Numbers, archive: &[u8], out: Stdout) {
    let mut order = [9u32; 8];
    show::outcome(
        answered(rarest_first::rarest_first(archive, n.terms(0), &mut order)),
        out,
    );
    show::lent(&order, out);
}

// The first two numbers are how many numbers are lent, for the answer and for the work, or for entries and lengths: at most 128, and for the work
// so many that 4,096 documents can be searched. The lent slices hold nines, and are printed after the answer.
fn ask_lent(lending: Lending, n: Numbers, archive: &[u8], out: Stdout) {
    let mut answers = [9u32; 128];
    let mut work = [9u32; 16400];
    let answers = answers.get_mut(..n.at(0) as usize);
    let work = work.get_mut(..n.at(1) as usize);
    if let (Some(answers), Some(work)) = (answers, work) {
        show::outcome(found(lending, n, archive, answers, work), out);
        show::lent(answers, out);
        show::lent(work, out);
    }
}

fn found(
    lending: Lending,
    n: Numbers,
    archive: &[u8],
    answers: &mut [u32],
    work: &mut [u32],
) -> Outcome {
    let (a, b, c, d) = (n.at(2), n.at(3), n.at(4), n.at(5));
    match lending {
        Lending::Read => was_read(reader::read(archive, answers, work)),
        Lending::List => answered(listing::list(archive, a, b, answers)),
        Lending::ListTerms => answered(listing::list_terms(archive, a, b, answers)),
        Lending::Conjunction => answered(conjunction::conjunction(archive, n.terms(2), answers)),
        Lending::GreedyEntries => ended(top_k::greedy_entries(archive, a, b, c, d, answers, work)),
        Lending::GreedyTerms => ended(top_k::greedy_terms(archive, a, b, c, d, answers, work)),
        Lending::ProbingEntries => answered(top_k::probing_entries(
            archive, a, b, c, answers, work,
        )),
        Lending::ProbingTerms => answered(top_k::probing_terms(archive, a, b, c, answers, work)),
        Lending::Weighted => ended(weighted::weighted(archive, n.terms(4), a, b, answers, work)),
    }
}
