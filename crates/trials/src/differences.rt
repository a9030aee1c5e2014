// How many questions of each kind were compared, and a line for each difference. A write that fails is passed over.
use plain::outcome::{Found, Kind, Question, Refusal};
use std::io::Stdout;

// Counts of members among a number of candidates: how many were none of them, some, and all.
#[derive(Clone, Copy, Debug, PartialEq, Eq, Default)]
struct Shares {
    none: u32,
    some: u32,
    all: u32,
}

impl Shares {
    fn add(&mut self, members: u32, candidates: u32) {
        if members == 0 {
            count(&mut self.none);
        } else if members == candidates {
            count(&mut self.all);
        } else {
            count(&mut self.some);
        }
    }
}

// What was counted, and where lines go.
#[derive(Drop)]
pub struct Tally {
    // Of each kind, in the order of the kinds, and the refusals, by their numbers.
    questions: [u32; 27],
    refusals: [u32; 20],
    // Ends of the weighted searches of patterns.
    done: u32,
    spent: u32,
    places_at_the_end: u32,
    // Documents that match a boolean question.
    matches: Shares,
    rates_at_a_half: u32,
    // Entries before a place that belong to a set.
    members: Shares,
    differences: u32,
    out: Stdout,
}

fn count(number: &mut u32) {
    *number = number.wrapping_add(1);
}

fn count_at(numbers: &mut [u32], place: usize) {
    if let Some(number) = numbers.get_mut(place) {
        count(number);
    }
}

impl Tally {
    pub fn new(out: Stdout) -> Tally {
        Tally {
            questions: [0; 27],
            refusals: [0; 20],
            done: 0,
            spent: 0,
            places_at_the_end: 0,
            matches: Shares::default(),
            rates_at_a_half: 0,
            members: Shares::default(),
            differences: 0,
            out,
        }
    }

    // Counts a comparison: the outcomes, and whether the lent slices are alike. Whether there is no difference.
    pub fn compare(
        &mut self,
        q: Question,
        found: Result<Found, Refusal>,
        expected: Result<Found, Refusal>,
        alike: bool,
    ) -> bool {
        count_at(&mut self.questions, q.kind as usize);
        if let Err(refusal) = expected {
            count_at(&mut self.refusals, u32::from(refusal) as usize);
        }
        if found == expected && alike {
            return true;
        }
        self.difference(q, found, expected);
        false
    }

    // The number of the library, the question, what was found and what the plain count gives.
    fn difference(
        &mut self,
        q: Question,
        found: Result<Found, Refusal>,
        expected: Result<Found, Refusal>,
    ) {
        count(&mut self.differences);
        let library = self.questions[0];
        let _ = println!(self.out;
            "difference: library {library}, {q:?}: found {found:?}, expected {expected:?}"
        );
    }

    // Of a weighted search of a pattern.
    pub fn count_end(&mut self, end: Result<Found, Refusal>) {
        match end {
            Ok(Found::Done { .. }) => count(&mut self.done),
            Ok(Found::Spent { .. }) => count(&mut self.spent),
            _ => {}
        }
    }

    // Of a select and of a walk of places, where the answer is n.
    pub fn count_place(&mut self, place: Result<Found, Refusal>, n: u32) {
        if place == Ok(Found::Number(n)) {
            count(&mut self.places_at_the_end);
        }
    }

    // Of a boolean question.
    pub fn count_matches(&mut self, answer: Result<Found, Refusal>, documents: u32) {
        if let Ok(Found::Number(matches)) = answer {
            self.matches.add(matches, documents);
        }
    }

    // Of a rate.
    pub fn count_half(&mut self, rate: Result<Found, Refusal>, half: bool) {
        if half && rate.is_ok() {
            count(&mut self.rates_at_a_half);
        }
    }

    // Of a count of a set before a place.
    pub fn count_members(&mut self, answer: Result<Found, Refusal>, place: u32) {
        if let Ok(Found::Number(members)) = answer {
            self.members.add(members, place);
        }
    }

    // A line of numbers.
    pub fn show(&self, numbers: &[u32]) {
        for x in numbers {
            let _ = print!(self.out; " {x}");
        }
        let _ = println!(self.out);
    }

    // One line a kind of question, and how many were compared; how the weighted searches of patterns ended, how many places were the end, how many
    // documents matched, how many rates were halves, and how many entries belonged to a set; then how many are refused, by number; then the differences.
    pub fn totals(&self) {
        for (kind, times) in Kind::ALL.iter().zip(self.questions.iter()) {
            let _ = println!(self.out; "{kind} {times}");
        }
        self.show_counts();
        for (number, times) in self.refusals.iter().enumerate() {
            if *times != 0 {
                let _ = println!(self.out; "refused {number}: {times}");
            }
        }
        let differences = self.differences;
        let _ = println!(self.out; "differences {differences}");
    }

    fn show_counts(&self) {
        let Tally {
            done,
            spent,
            places_at_the_end: places,
            rates_at_a_half: halves,
            ..
        } = self;
        let Shares { none, some, all } = self.matches;
        let _ = println!(self.out; "weighted of patterns: done {done}, spent {spent}");
        let _ = println!(self.out; "places at the end {places}");
        let _ = println!(self.out; "boolean: no document {none}, some {some}, all {all}");
        let _ = println!(self.out; "rates at a half {halves}");
        let Shares { none, some, all } = self.members;
        let _ = println!(self.out; "rank of a set: no entry {none}, some {some}, all {all}");
    }
}
