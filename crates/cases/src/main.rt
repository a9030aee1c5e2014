// Cases: each line of standard input is printed. One that begins with the name of an operation, and a space, makes an archive or asks a question, and
// what is found follows it.
#![tactic(auto)]

mod answered;
mod archives;
mod numbers;
mod operations;
mod questions;
mod show;

ghost use Rattle.std.specs.Prelude.{◌≡◌, ◌++◌, ◌∷◌, IfSome};

use answered::opened;
use numbers::{Numbers, read_numbers};
use operations::{Operation, Query, operation_of};
use report::read_full;
use std::io::Stdout;

fn change(bytes: &mut [u8], place: usize, mask: u32) {
    if let Some(byte) = bytes.get_mut(place) {
        *byte ^= (mask % 256) as u8;
    }
}

// open SIZE BYTE MASK: of so many bytes, one of them changed by a mask, and changed back after the question.
fn open(numbers: Numbers, bytes: &mut [u8], out: Stdout) {
    let place = 16 + numbers.at(1) as usize;
    change(bytes, place, numbers.at(2));
    if let Some(archive) = bytes.get(16..16 + numbers.at(0) as usize) {
        show::outcome(opened(archive::open(archive)), out);
    }
    change(bytes, place, numbers.at(2));
}

// report F L K ALLOWANCE SIZE BYTE MASK: so with the question, in the 16 bytes before the archive.
fn report(numbers: Numbers, bytes: &mut [u8], out: Stdout) {
    let mut output = [0u8; 65536];
    let place = numbers.at(5) as usize;
    change(bytes, place, numbers.at(6));
    if let Some(input) = bytes.get(..numbers.at(4) as usize) {
        let size = report::whole(input, &mut output);
        show::text(&output[..size], out);
    }
    change(bytes, place, numbers.at(6));
}

// The first four numbers of a line into the 16 bytes before the archive, low byte first.
fn put_question(numbers: Numbers, bytes: &mut [u8]) {
    for (place, number) in bytes.chunks_exact_mut(4).take(4).enumerate() {
        number.copy_from_slice(&numbers.at(place).to_le_bytes());
    }
}

// bytes SIZE: those behind the archive, of so many bytes.
fn show_bytes(numbers: Numbers, size: u32, bytes: &[u8], out: Stdout) {
    let from = size.wrapping_add(16) as usize;
    if let Some(behind) = bytes.get(from..from + numbers.at(0) as usize) {
        show::bytes(behind, out);
    }
}

// Of the whole archive, behind 16 bytes.
fn ask(query: Query, numbers: Numbers, size: u32, bytes: &[u8], out: Stdout) {
    if let Some(archive) = bytes.get(16..16 + size as usize) {
        questions::ask(query, numbers, archive, out);
    }
}

// How many bytes the archive has after the line.
fn answer(operation: Operation, numbers: Numbers, size: u32, bytes: &mut [u8], out: Stdout) -> u32 {
    match operation {
        Operation::Write => return archives::write(numbers, bytes, out),
        Operation::Archive => return archives::put_bytes(numbers, bytes, out),
        Operation::Cut => return archives::cut(numbers.at(0), out),
        Operation::Open => open(numbers, bytes, out),
        Operation::Report => report(numbers, bytes, out),
        Operation::Bytes => show_bytes(numbers, size, bytes, out),
        Operation::Ask(query) => ask(query, numbers, size, bytes, out),
    }
    size
}

fn answer_line(line: &[u8], size: u32, bytes: &mut [u8], out: Stdout) -> u32 {
    let mut numbers = [0u32; 70000];
    show::text(line, out);
    let Some(operation) = operation_of(line) else {
        return size;
    };
    let _ = print!(out; ": ");
    read_numbers(line, &mut numbers);
    let numbers = Numbers { listed: &numbers };
    put_question(numbers, bytes);
    answer(operation, numbers, size, bytes, out)
}

// The first line, and what is behind its line feed.
fn split_line(input: &[u8]) -> Option<(&[u8], &[u8])>
    ensures { IfSome result (λ p. p.0.now ++ 10 ∷ p.1.now ≡ input.now) }
{
    let end = input.iter().position(|b| *b == b'\n')?;
    Some((&input[..end], &input[end + 1..]))
}

fn answer_all(input: &[u8], bytes: &mut [u8], out: Stdout) {
    let mut size = 0;
    let mut rest = input;
    while let Some((line, after)) = split_line(rest) {
        size = answer_line(line, size, bytes, out);
        let _ = println!(out);
        rest = after;
    }
}

fn main(rt: HostRuntime) {
    let mut input = [0u8; 65536];
    let mut bytes = [0u8; 131088];
    let got = read_full(&mut rt.stdin(), &mut input);
    answer_all(&input[..got], &mut bytes, rt.stdout());
}
