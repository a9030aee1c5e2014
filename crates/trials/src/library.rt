// A library: the list of its entries with the lengths of its terms, its sizes, and the archive that was written of it.
ghost use Rattle.std.specs.Prelude.{◌<◌};

use arrayvec::ArrayVec;
use plain::outcome::Sizes;

// Before it is written the archive is empty.
#[derive(Clone, Copy)]
pub struct Library<'a> {
    pub archive: &'a [u8],
    pub entries: &'a [u32],
    pub lengths: &'a [u32],
    pub sizes: Sizes,
}

// A set, or a question with and, or, not: more numbers than either may have.
pub type Numbers = ArrayVec<u32, 72>;

// So many numbers from the first on; all where there are fewer.
pub fn front(numbers: &[u32], size: u32) -> &[u32] {
    numbers.get(..size as usize).unwrap_or(numbers)
}

// How many numbers: no slice here has 2^32.
pub fn size_of(numbers: &[u32]) -> u32 {
    (numbers.len() % 4294967296) as u32
}

// 0 where there is none.
pub fn number_at(numbers: &[u32], place: usize) -> u32 {
    numbers.get(place).copied().unwrap_or(0)
}

// Nothing is written where there is none.
pub fn put(numbers: &mut [u32], place: usize, number: u32) {
    if let Some(before) = numbers.get_mut(place) {
        *before = number;
    }
}

// The digit of a number at a place, the lowest at place 0.
pub fn digit(number: u32, base: u32, place: u32) -> u32
    requires { 0 < base }
    ensures { result < base }
{
    (0..place).fold(number, |rest, _| rest / base) % base
}
