// The rate, by going up from 0 in steps, and whether it is at a half.
use crate::outcome::{Found, Refusal};

// 2,000 × count is held against (2 × r + 1) × size, the middle between r and the number after it: below it r is the nearest, and at it the even one of the
// two is taken. At most 2,001 × 2^32 is reached.
fn rounded(count: u32, size: u32) -> u32 {
    let twice = 2000 * u64::from(count);
    let size = u64::from(size);
    for r in 0..1000 {
        let middle = (2 * r + 1) * size;
        if twice < middle {
            return r as u32;
        }
        if twice == middle {
            return (r + r % 2) as u32;
        }
    }
    1000
}

pub fn per_mille(count: u32, size: u32) -> Result<Found, Refusal> {
    if size == 0 || size < count {
        return Err(Refusal::Argument);
    }
    Ok(Found::Number(rounded(count, size)))
}

// Whether the count in thousandths of the size lies half way between two whole numbers.
pub fn is_half(count: u32, size: u32) -> bool {
    if size == 0 {
        return false;
    }
    let twice = 2000 * u64::from(count);
    let size = u64::from(size);
    twice % size == 0 && twice / size % 2 == 1
}
