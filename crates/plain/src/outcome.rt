// What a question is, what it finds, and why there is no answer.
use std::fmt;

// Why there is no answer. `Unlent` is the gate's own, where less can be lent than a question asks for, and `Other` stands for the numbers that no plain
// count refuses with.
#[derive(Clone, Copy, Debug, PartialEq, Eq)]
pub enum Refusal {
    Unlent,
    TermCount,
    Argument,
    AnswerSlice,
    WorkSlice,
    WriterTarget,
    Question,
    Set,
    Other(u32),
}

// The numbers are those of the table of refusals in document 01.
impl From<Refusal> for u32 {
    fn from(refusal: Refusal) -> u32 {
        match refusal {
            Refusal::Unlent => 0,
            Refusal::TermCount => 10,
            Refusal::Argument => 11,
            Refusal::AnswerSlice => 12,
            Refusal::WorkSlice => 13,
            Refusal::WriterTarget => 17,
            Refusal::Question => 18,
            Refusal::Set => 19,
            Refusal::Other(number) => number,
        }
    }
}

impl From<u32> for Refusal {
    fn from(number: u32) -> Refusal {
        match number {
            0 => Refusal::Unlent,
            10 => Refusal::TermCount,
            11 => Refusal::Argument,
            12 => Refusal::AnswerSlice,
            13 => Refusal::WorkSlice,
            17 => Refusal::WriterTarget,
            18 => Refusal::Question,
            19 => Refusal::Set,
            _ => Refusal::Other(number),
        }
    }
}

// n, N and W.
#[derive(Clone, Copy, Debug, PartialEq, Eq)]
pub struct Sizes {
    pub n: u32,
    pub documents: u32,
    pub terms: u32,
}

// The entries from one up to but without another.
#[derive(Clone, Copy, Debug, PartialEq, Eq)]
pub struct Bounds {
    pub from: u32,
    pub to: u32,
}

// What a question finds: a number, a range, the sizes of an archive, or the end of a search.
#[derive(Clone, Copy, Debug, PartialEq, Eq)]
pub enum Found {
    Number(u32),
    Bounds { from: u32, to: u32 },
    Sizes(Sizes),
    Done { listed: u32, openings: u32 },
    Spent { listed: u32, allowance: u32 },
}

impl From<Bounds> for Found {
    fn from(bounds: Bounds) -> Found {
        Found::Bounds {
            from: bounds.from,
            to: bounds.to,
        }
    }
}

// What is asked. `as u32` gives the kinds numbers from 0 on, in this order.
#[derive(Clone, Copy, Debug, PartialEq, Eq)]
pub enum Kind {
    Write,
    Open,
    Read,
    Access,
    Rank,
    Select,
    QuantileOfEntries,
    QuantileOfTerms,
    RangeOfTerms,
    PerMille,
    ListOfEntries,
    ListOfTerms,
    Conjunction,
    GreedyOfEntries,
    GreedyOfTerms,
    ProbingOfEntries,
    ProbingOfTerms,
    Weighted,
    WalkOfPlaces,
    ConjunctionOfPatterns,
    WeightedOfPatterns,
    Boolean,
    BooleanOfSequences,
    PerMilleOfSmallSizes,
    RankOfASet,
    RarestFirst,
    WeightedOfOrders,
}

impl Kind {
    // Every kind, in order.
    pub const ALL: [Kind; 27] = [
        Kind::Write,
        Kind::Open,
        Kind::Read,
        Kind::Access,
        Kind::Rank,
        Kind::Select,
        Kind::QuantileOfEntries,
        Kind::QuantileOfTerms,
        Kind::RangeOfTerms,
        Kind::PerMille,
        Kind::ListOfEntries,
        Kind::ListOfTerms,
        Kind::Conjunction,
        Kind::GreedyOfEntries,
        Kind::GreedyOfTerms,
        Kind::ProbingOfEntries,
        Kind::ProbingOfTerms,
        Kind::Weighted,
        Kind::WalkOfPlaces,
        Kind::ConjunctionOfPatterns,
        Kind::WeightedOfPatterns,
        Kind::Boolean,
        Kind::BooleanOfSequences,
        Kind::PerMilleOfSmallSizes,
        Kind::RankOfASet,
        Kind::RarestFirst,
        Kind::WeightedOfOrders,
    ];
}

impl fmt::Display for Kind {
    fn fmt<W: fmt::Write>(&self, f: &mut fmt::Formatter<W>) -> fmt::Result {
        f.write_str(match self {
            Kind::Write => "write",
            Kind::Open => "open",
            Kind::Read => "read",
            Kind::Access => "access",
            Kind::Rank => "rank",
            Kind::Select => "select",
            Kind::QuantileOfEntries => "quantile of entries",
            Kind::QuantileOfTerms => "quantile of terms",
            Kind::RangeOfTerms => "range of terms",
            Kind::PerMille => "per mille",
            Kind::ListOfEntries => "list of entries",
            Kind::ListOfTerms => "list of terms",
            Kind::Conjunction => "conjunction",
            Kind::GreedyOfEntries => "greedy of entries",
            Kind::GreedyOfTerms => "greedy of terms",
            Kind::ProbingOfEntries => "probing of entries",
            Kind::ProbingOfTerms => "probing of terms",
            Kind::Weighted => "weighted",
            Kind::WalkOfPlaces => "walk of places",
            Kind::ConjunctionOfPatterns => "conjunction of patterns",
            Kind::WeightedOfPatterns => "weighted of patterns",
            Kind::Boolean => "boolean",
            Kind::BooleanOfSequences => "boolean of sequences",
            Kind::PerMilleOfSmallSizes => "per mille of small sizes",
            Kind::RankOfASet => "rank of a set",
            Kind::RarestFirst => "rarest first",
            Kind::WeightedOfOrders => "weighted of orders",
        })
    }
}

// The kind of a question, its numbers, and how many numbers of the two slices are lent.
#[derive(Clone, Copy, Debug, PartialEq, Eq)]
pub struct Question {
    pub kind: Kind,
    pub a: u32,
    pub b: u32,
    pub c: u32,
    pub d: u32,
    pub answers: u32,
    pub work: u32,
}

pub fn question_of(kind: Kind, a: u32, b: u32, c: u32) -> Question {
    Question {
        kind,
        a,
        b,
        c,
        d: 0,
        answers: 0,
        work: 0,
    }
}
