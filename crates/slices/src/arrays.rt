// Several items at once: they are written where all of them have a place.

use crate::numbers::down;

// From place i on.
pub fn put_array<T: Copy, const N: usize>(xs: &mut [T], i: usize, items: [T; N]) {
    if let Some(place) = xs.get_mut(i..).and_then(|rest| rest.first_chunk_mut()) {
        *place = items;
    }
}

// The lowest byte of x div 2^s.
fn byte(x: u32, s: u32) -> u8 {
    (down(x, s) % 256) as u8
}

// 32 bits, low byte first: by shifts, since the code has std's `to_le_bytes` for it.
pub fn put_number(bytes: &mut [u8], i: usize, x: u32) {
    put_array(bytes, i, [byte(x, 0), byte(x, 8), byte(x, 16), byte(x, 24)]);
}
