// From the answer of an operation to 0 and the out-parameters, or to the number of the refusal: one function for each shape of answer.
// No closure does it for every shape: of one that is not called, nothing says that it leaves the out-parameters as they were.
ghost use Rattle.std.specs.Prelude.{◌≡◌, ◌^◌, ◌<◌, MatchResult};
ghost use Rattle.refusals.specs.Refusals.{refusal_number};
ghost use Rattle.archive_ranges.specs.Ranges.{bounds_in};
ghost use Rattle.reader.specs.Reading.{reading_of};
ghost use Rattle.moves.specs.Results.{top_k_of};
ghost use Rattle.ffi.specs.Left as border;
ghost use Rattle.ffi.specs.Left.{given, ended, Narrow, coded, two, three};

use archive_ranges::Entries;
use moves::Ended;
use reader::Sizes;
use refusals::Refusal;

// A number of any width.
pub fn number<T: Copy>(answer: Result<T, Refusal>, out: &mut T) -> u32
    ensures { MatchResult answer (λ x. (result ≡ 0) × (out.new ≡ x)) (λ r. (result ≡ refusal_number r) × (out.new ≡ out.old)) }
{
    match answer {
        Ok(x) => {
            *out = x;
            0
        }
        Err(refusal) => u32::from(refusal),
    }
}

// The two ends of a range.
pub fn ends(range: Result<Entries, Refusal>, first: &mut u32, second: &mut u32) -> u32
    ensures { coded result (two first.new second.new)
        ≡ given border.ends (bounds_in range) (two first.old second.old) }
{
    match range {
        Ok(entries) => {
            *first = entries.from;
            *second = entries.to;
            0
        }
        Err(refusal) => u32::from(refusal),
    }
}

// n, N and W, which are below 2^32.
pub fn sizes(
    answer: Result<Sizes, Refusal>,
    first: &mut u32,
    second: &mut u32,
    third: &mut u32,
) -> u32
    requires { Narrow answer }
    ensures { coded result (three first.new second.new third.new)
        ≡ given border.sizes (reading_of answer) (three first.old second.old third.old) }
{
    match answer {
        Ok(read) => {
            *first = read.entries as u32;
            *second = read.documents as u32;
            *third = read.terms as u32;
            0
        }
        Err(refusal) => u32::from(refusal),
    }
}

// How a search ended.
pub fn top_k(
    answer: Result<Ended, Refusal>,
    first: &mut u32,
    second: &mut u32,
    third: &mut u32,
) -> u32
    ensures { coded result (three first.new second.new third.new)
        ≡ given ended (top_k_of answer) (three first.old second.old third.old) }
{
    match answer {
        Ok(Ended::Done { listed, openings }) => {
            *first = listed;
            *second = 0;
            *third = openings;
            0
        }
        Ok(Ended::Spent { listed, allowance }) => {
            *first = listed;
            *second = 1;
            *third = allowance;
            0
        }
        Err(refusal) => u32::from(refusal),
    }
}
