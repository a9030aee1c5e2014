// The operations, and their names.

#[derive(Clone, Copy, Debug, PartialEq, Eq)]
pub enum Operation {
    Write,
    Archive,
    Cut,
    Open,
    Report,
    Bytes,
    Ask(Query),
}

// What is asked of a whole archive.
#[derive(Clone, Copy, Debug, PartialEq, Eq)]
pub enum Query {
    Access,
    Rank,
    Quantile,
    QuantileTerms,
    PerMille,
    Select,
    RangeOfTerms,
    Boolean,
    RankSet,
    RarestFirst,
    Lent(Lending),
}

// What is asked with an answer slice and a work slice lent.
#[derive(Clone, Copy, Debug, PartialEq, Eq)]
pub enum Lending {
    Read,
    List,
    ListTerms,
    Conjunction,
    GreedyEntries,
    GreedyTerms,
    ProbingEntries,
    ProbingTerms,
    Weighted,
}

// The operation whose name a line begins with. A space ends the name.
pub fn operation_of(line: &[u8]) -> Option<Operation> {
    let end = line.iter().position(|b| *b == b' ')?;
    match &line[..end] {
        b"write" => Some(Operation::Write),
        b"archive" => Some(Operation::Archive),
        b"cut" => Some(Operation::Cut),
        b"open" => Some(Operation::Open),
        b"report" => Some(Operation::Report),
        b"bytes" => Some(Operation::Bytes),
        name => query_of(name).map(Operation::Ask),
    }
}

fn query_of(name: &[u8]) -> Option<Query> {
    match name {
        b"access" => Some(Query::Access),
        b"rank" => Some(Query::Rank),
        b"quantile" => Some(Query::Quantile),
        b"quantile_terms" => Some(Query::QuantileTerms),
        b"per_mille" => Some(Query::PerMille),
        b"select" => Some(Query::Select),
        b"range_of_terms" => Some(Query::RangeOfTerms),
        b"boolean" => Some(Query::Boolean),
        b"rank_set" => Some(Query::RankSet),
        b"rarest_first" => Some(Query::RarestFirst),
        _ => lending_of(name).map(Query::Lent),
    }
}

fn lending_of(name: &[u8]) -> Option<Lending> {
    match name {
        b"read" => Some(Lending::Read),
        b"list" => Some(Lending::List),
        b"list_terms" => Some(Lending::ListTerms),
        b"conjunction" => Some(Lending::Conjunction),
        b"greedy_entries" => Some(Lending::GreedyEntries),
        b"greedy_terms" => Some(Lending::GreedyTerms),
        b"probing_entries" => Some(Lending::ProbingEntries),
        b"probing_terms" => Some(Lending::ProbingTerms),
        b"weighted" => Some(Lending::Weighted),
        _ => None,
    }
}
