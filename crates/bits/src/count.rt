// Bits and counts of ones, without samples. Eight bytes at a time are counted as a word.
ghost use Rattle.std.specs.Prelude.{◌≡◌, ◌+◌, ◌-◌, ◌*◌, ◌/◌, ◌%◌, ◌^◌, ◌≤◌, ◌<◌, length};
ghost use Rattle.std.specs.Int.Count.{ones};
ghost use Rattle.bits.specs.Bits.{bit_at};
ghost use Rattle.bits.specs.Rows.{count_below, of_kind};

use crate::numbers::word;

// Bit i of the row. A number and no bool: readers append it to a key (`2 * key + b`), as `put_bit` shifts the one that it stores.
pub fn bit(row: &[u8], i: usize) -> u8
    requires { i < 8 * length row.now }
    ensures { (result ≡ bit_at row.now i) × (result < 2) }
{
    (row[i / 8] >> (i % 8)) % 2
}

// Of i bits with n ones, how many are v.
pub fn of_kind(v: bool, i: usize, n: usize) -> usize
    requires { n ≤ i }
    ensures { (result ≡ of_kind v i n) × (result ≤ i) }
{
    if v { n } else { i - n }
}

// The ones of a word; a byte is one with zeros above.
pub fn word_ones(x: u64) -> usize
    ensures { (result ≡ ones x) × (result ≤ 64) }
{
    x.count_ones() as usize
}

// What m words from byte a on add to the ones below.
fn ones_in_words(row: &[u8], a: usize, m: usize) -> usize
    requires { (a + 8 * m ≤ length row.now) × (8 * a + 64 * m < 2 ^ 64) }
    ensures { (count_below 1 row.now (8 * (a + 8 * m)) ≡ count_below 1 row.now (8 * a) + result) × (result ≤ 64 * m) }
{
    let mut count: usize = 0;
    for w in 0..m {
        count += word_ones(word(row, a + 8 * w));
    }
    count
}

// What the bytes from byte a up to byte e add to the ones below.
fn ones_in_bytes(row: &[u8], a: usize, e: usize) -> usize
    requires { (a ≤ e) × (e ≤ length row.now) × (8 * e < 2 ^ 64) }
    ensures { (count_below 1 row.now (8 * e) ≡ count_below 1 row.now (8 * a) + result) × (result ≤ 8 * (e - a)) }
{
    let mut count: usize = 0;
    for k in a..e {
        count += word_ones(u64::from(row[k]));
    }
    count
}

// The same, by words as far as they go.
pub fn ones_in(row: &[u8], a: usize, e: usize) -> usize
    requires { (a ≤ e) × (e ≤ length row.now) × (8 * e < 2 ^ 64) }
    ensures { (count_below 1 row.now (8 * e) ≡ count_below 1 row.now (8 * a) + result) × (result ≤ 8 * (e - a)) }
{
    let m = (e - a) / 8;
    ones_in_words(row, a, m) + ones_in_bytes(row, a + 8 * m, e)
}

fn low_ones(x: u8, r: usize) -> usize
    requires { r < 8 }
    ensures { (result ≡ ones (x % 2 ^ r)) × (result ≤ r) }
{
    word_ones(u64::from(x % (1 << r)))
}

// What the bits below bit i in its own byte add to the ones below.
pub fn tail_ones(row: &[u8], i: usize) -> usize
    requires { i ≤ 8 * length row.now }
    ensures { (count_below 1 row.now i ≡ count_below 1 row.now (8 * (i / 8)) + result) × (result ≤ i % 8) }
{
    let r = i % 8;
    if r == 0 {
        return 0;
    }
    low_ones(row[i / 8], r)
}

// The ones below place i, counted from the row's start.
pub fn ones_before(row: &[u8], i: usize) -> usize
    requires { i ≤ 8 * length row.now }
    ensures { (result ≡ count_below 1 row.now i) × (result ≤ i) }
{
    ones_in(row, 0, i / 8) + tail_ones(row, i)
}
