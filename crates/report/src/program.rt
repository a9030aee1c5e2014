// From the input to the report: f, l, k and the allowance, then an archive.
ghost use Rattle.std.specs.Prelude.{◌≡◌, ◌*◌, ◌≤◌, length, take};
ghost use Rattle.moves.specs.Results.{top_k_of};
ghost use Rattle.report.specs.Report.{lines_of, answer_to, text_of, report, shown, written};
ghost use Rattle.io.specs.Counts.{IsPrefixLen};
ghost use Rattle.report.specs.Types.{Types, text_in, Listed};

use crate::text::{put_last, put_line};
use bit_rows::number;
use moves::Ended;
use refusals::Refusal;
use top_k::greedy_terms;

// A line for each of the first n documents, from the three numbers that each has in the answer slice.
fn put_lines(output: &mut [u8], answers: &[u32], n: usize) -> usize
    requires { (n ≤ 4096) × (12288 ≤ length answers.now) }
    ensures { Types (lines_of (take (3 * n) answers.now)) 0 output.old result output.new }
{
    let mut at = 0;
    for i in 0..n {
        let first = 3 * i;
        let document = answers[first];
        let count = answers[first + 1];
        let place = answers[first + 2];
        at = put_line(output, at, document, count, place);
    }
    at
}

fn put_answer(output: &mut [u8], answers: &[u32], r: Result<Ended, Refusal>) -> usize
    requires listed { Listed (top_k_of r) }
    requires in_bounds { 12288 ≤ length answers.now }
    ensures { Types (text_in (top_k_of r) answers.now) 0 output.old result output.new }
{
    match r {
        Ok(Ended::Done { listed, openings }) => {
            let at = put_lines(output, answers, listed as usize);
            put_last(output, at, b"done ", openings)
        }
        Ok(Ended::Spent { listed, allowance }) => {
            let at = put_lines(output, answers, listed as usize);
            put_last(output, at, b"spent ", allowance)
        }
        Err(refusal) => put_last(output, 0, b"refused ", u32::from(refusal)),
    }
}

// The shortlist of an input of 16 bytes or more, with room for the answers of any archive.
fn put_shortlist(input: &[u8], output: &mut [u8], answers: &mut [u32], work: &mut [u32]) -> usize
    requires in_bounds { 16 ≤ length input.now }
    requires in_bounds_2 { (12288 ≤ length answers.old) × (16384 ≤ length work.old) }
    ensures { Types (text_of (answer_to input.now)) 0 output.old result output.new }
{
    let f = number(input, 0) as u32;
    let l = number(input, 4) as u32;
    let k = number(input, 8) as u32;
    let allowance = number(input, 12) as u32;
    let start = 16;
    let r = greedy_terms(&input[start..], f, l, k, allowance, answers, work);
    put_answer(output, answers, r)
}

fn put_report(input: &[u8], output: &mut [u8]) -> usize
    requires { 16 ≤ length input.now }
    ensures { Types (text_of (answer_to input.now)) 0 output.old result output.new }
{
    let mut answers = [0u32; 12288];
    let mut work = [0u32; 16384];
    put_shortlist(input, output, &mut answers, &mut work)
}

// The report of any input, in the front of the output as far as it has room; answers how many bytes were written.
pub fn shortlist(input: &[u8], output: &mut [u8]) -> usize
    ensures { record { size = result; output = output.new } ≡ shown (report input.now) output.old }
{
    if 65536 < input.len() {
        return put_last(output, 0, b"refused ", 0);
    }
    if input.len() < 56 {
        return put_last(output, 0, b"refused ", u32::from(Refusal::TooShort));
    }
    put_report(input, output)
}

// The whole of it, in an output that has room for every report (proofs/Fits).
pub fn whole(input: &[u8], output: &mut [u8; 65536]) -> usize
    ensures output_after { record { size = result; output = output.new } ≡ written (report input.now) output.old }
    ensures prefix_len { IsPrefixLen result output.new }
{
    shortlist(input, output)
}
