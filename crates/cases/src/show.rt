// How answers are printed. A write that fails is passed over.
use refusals::Refusal;
use std::fmt::Display;
use std::io::Stdout;

// Bytes that need not be text.
pub fn text(bytes: &[u8], out: Stdout) {
    let _ = out.write_all(bytes);
}

pub fn outcome<T: Display + Drop>(found: Result<T, Refusal>, out: Stdout) {
    let _ = match found {
        Ok(found) => out.print(found),
        Err(refused) => out.print(refused),
    };
}

// The numbers of a lent slice.
pub fn lent(numbers: &[u32], out: Stdout) {
    if !numbers.is_empty() {
        let _ = print!(out; ";");
    }
    for x in numbers {
        let _ = print!(out; " {x}");
    }
}

pub fn bytes(bytes: &[u8], out: Stdout) {
    for x in bytes {
        let _ = print!(out; " {x}");
    }
}
