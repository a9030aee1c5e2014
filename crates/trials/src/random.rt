// Numbers drawn by mixing a seed, so that a seed goes by value: each seed has as many numbers as are asked of it.

// Products wrap at 2^32.
fn mixed(x: u32) -> u32 {
    let a = (x ^ (x >> 16)).wrapping_mul(569420461);
    let b = (a ^ (a >> 15)).wrapping_mul(1935289751);
    b ^ (b >> 15)
}

// Number i of a seed, which may be the seed of others.
pub fn draw(seed: u32, i: u32) -> u32 {
    mixed(mixed(seed.wrapping_add(2654435769)).wrapping_add(i))
}

// Below m; 0 where m is 0.
pub fn below(seed: u32, m: u32) -> u32 {
    if m == 0 {
        return 0;
    }
    draw(seed, 0) % m
}

// One time in so many.
pub fn once_in(seed: u32, times: u32) -> bool {
    below(seed, times) == 0
}

// From 0 to m, the two ends more often, and sometimes just above m or any number.
pub fn near(seed: u32, m: u32) -> u32 {
    match below(seed, 40) {
        0 => 0,
        1 | 2 => m,
        3 => m.wrapping_sub(1),
        4 => m.wrapping_add(1),
        5 => draw(seed, 1),
        _ => below(draw(seed, 2), m.wrapping_add(1)),
    }
}

// Two ends of a range.
#[derive(Clone, Copy, Debug, PartialEq, Eq)]
pub struct Ends {
    pub first: u32,
    pub last: u32,
}

// Two numbers near 0 to m, most often the lower one first.
pub fn two_ends(seed: u32, m: u32) -> Ends {
    let x = near(draw(seed, 1), m);
    let y = near(draw(seed, 2), m);
    if x <= y || once_in(draw(seed, 3), 12) {
        return Ends { first: x, last: y };
    }
    Ends { first: y, last: x }
}

// A room for so many: that or a little more, and sometimes one less.
pub fn room(seed: u32, least: u32) -> u32 {
    if least == 0 {
        return below(seed, 6);
    }
    if once_in(draw(seed, 1), 16) {
        return least - 1;
    }
    least.wrapping_add(below(seed, 6))
}
