// Numbers of 32 bits by their places, and shifts of any width.

// x × 2^s, as far as it has a place in 32 bits.
pub fn up(x: u32, s: u32) -> u32 {
    x.checked_shl(s).unwrap_or(0)
}

// x div 2^s.
pub fn down(x: u32, s: u32) -> u32 {
    x.checked_shr(s).unwrap_or(0)
}

pub fn at(xs: &[u32], i: u32) -> u32 {
    xs.get(i as usize).copied().unwrap_or(0)
}

pub fn put(xs: &mut [u32], i: u32, x: u32) {
    if let Some(place) = xs.get_mut(i as usize) {
        *place = x;
    }
}

// Counts wrap at 2^32, which no list is long enough for.
pub fn count_at(xs: &mut [u32], i: u32) {
    if let Some(count) = xs.get_mut(i as usize) {
        *count = count.wrapping_add(1);
    }
}
