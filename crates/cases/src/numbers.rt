// The numbers of a line, in their order; words between them are for the reader, and a bracket ends them. 3*7 is three sevens.
use paths::Terms;

// One that is not there is 0.
#[derive(Clone, Copy)]
pub struct Numbers<'a> {
    pub listed: &'a [u32],
}

impl<'a> Numbers<'a> {
    pub fn at(self, place: usize) -> u32 {
        self.listed.get(place).copied().unwrap_or(0)
    }

    // So many from a place on, where there are so many.
    pub fn slice(self, from: usize, size: u32) -> Option<&'a [u32]> {
        self.listed.get(from..)?.get(..size as usize)
    }

    // How many terms are asked, at a place, then eight.
    pub fn terms(self, place: usize) -> Terms {
        Terms {
            numbers: std::array::from_fn(|i| self.at(place.saturating_add(i).saturating_add(1))),
            size: self.at(place),
        }
    }
}

// The number whose digits a text begins with. It wraps at 2^32.
fn value_of(text: &[u8]) -> u32 {
    text.iter().take_while(|b| b.is_ascii_digit()).fold(
        0u32,
        |x, b| x.wrapping_mul(10).wrapping_add(u32::from(b % 16)),
    )
}

fn put(numbers: &mut [u32], place: u32, x: u32) {
    if let Some(number) = numbers.get_mut(place as usize) {
        *number = x;
    }
}

// What a star repeats may reach past the buffer, and the count wraps at 2^32, so the count is no length of a Vec: what a line means may not change.
// One number more, behind so many; after a star the last one says how often it stands from there on. How many there are then.
fn put_next(numbers: &mut [u32], count: u32, x: u32, before: u8) -> u32 {
    if before != b'*' {
        put(numbers, count, x);
        return count.wrapping_add(1);
    }
    let place = count.wrapping_sub(1);
    let times = Numbers { listed: numbers }.at(place as usize);
    for i in 0..times {
        put(numbers, place.wrapping_add(i), x);
    }
    place.wrapping_add(times)
}

// Into zeros.
pub fn read_numbers(line: &[u8], numbers: &mut [u32]) {
    let mut count = 0;
    let mut before = 0u8;
    for (i, byte) in line.iter().enumerate() {
        if *byte == b'(' {
            return;
        }
        if byte.is_ascii_digit() && !before.is_ascii_digit() {
            count = put_next(numbers, count, value_of(&line[i..]), before);
        }
        before = *byte;
    }
}
