// Lines that make an archive, behind 16 bytes. Each prints and answers the archive's length in bytes, 0 where it is refused.
use crate::answered::written;
use crate::numbers::Numbers;
use crate::show;
use std::io::Stdout;

// write ROOM N n ENTRIES W LENGTHS. All bytes are 9 before.
pub fn write(numbers: Numbers, bytes: &mut [u8], out: Stdout) -> u32 {
    bytes.fill(9);
    let after = 3 + numbers.at(2) as usize;
    let entries = numbers.slice(3, numbers.at(2));
    let lengths = numbers.slice(after + 1, numbers.at(after));
    let target = bytes.get_mut(16..16 + numbers.at(0) as usize);
    let (Some(entries), Some(lengths), Some(target)) = (entries, lengths, target) else {
        return 0;
    };
    let found = written(writer::write(entries, lengths, numbers.at(1), target));
    show::outcome(found, out);
    found.unwrap_or(0)
}

// archive SIZE BYTES.
pub fn put_bytes(numbers: Numbers, bytes: &mut [u8], out: Stdout) -> u32 {
    let size = numbers.at(0);
    for (place, byte) in bytes.iter_mut().skip(16).take(size as usize).enumerate() {
        *byte = (numbers.at(place + 1) % 256) as u8;
    }
    cut(size, out)
}

// cut SIZE.
pub fn cut(size: u32, out: Stdout) -> u32 {
    let _ = print!(out; "{size}");
    size
}
