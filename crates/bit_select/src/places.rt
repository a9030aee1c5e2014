// Select by the samples: the block by halving, then words, bytes and bits, each skipped while the wanted bit lies behind it.
ghost use Rattle.std.specs.Prelude.{◌≡◌, ◌+◌, ◌*◌, ◌≤◌, ◌<◌};
ghost use Rattle.bits.specs.Sequences as sequences;
ghost use Rattle.bits.specs.Sequences.{bit};
ghost use Rattle.bits.specs.Bits.{row_bytes, sample_count};
ghost use Rattle.bits.specs.Row.{content};
ghost use Rattle.bits.specs.Rows.{count_below};
ghost use Rattle.bit_select.specs.Search.{Reached, InWord, times_of};

use bits::{Row, number, of_kind, ones_in, word, word_ones};

// A byte of a row, and how many of the bits before it are of the wanted kind.
#[derive(Clone, Copy)]
pub struct Scan {
    byte: usize,
    before: usize,
}

// What is left of a word from a place on, and how many of the bits before that place are of the wanted kind.
#[derive(Clone, Copy)]
pub struct Left {
    bits: u64,
    place: usize,
    before: usize,
}

// x where the test holds, else 0.
fn times(x: usize, test: bool) -> usize
    ensures { (result ≡ times_of test x) × (result ≤ x) }
{
    x * (test as usize)
}

// Of the bits below sample t, how many are v.
fn sampled(row: Row, v: bool, t: usize) -> usize
    requires t_bound { t < sample_count row.n }
    ensures { (result ≡ count_below (bit v) row.entry.bits.now (512 * t)) × (result ≤ 512 * t) }
{
    of_kind(v, 512 * t, number(row.samples, 4 * t))
}

// A block before which fewer than j bits are v, as `from` is: the last such one of `many` blocks, by halving.
// Written by hand: `partition_point` tests an item alone, and of zeros the test takes the number of the sample too.
fn block_of(row: Row, v: bool, from: usize, many: usize, j: usize) -> usize
    requires many_bound { (0 < many) × (from + many ≤ sample_count row.n) × (count_below (bit v) row.bits.now (512 * from) < j) }
    ensures { (result < sample_count row.entry.n) × (count_below (bit v) row.entry.bits.now (512 * result) < j) }
{
    let mut lo = from;
    let mut len = many;
    while 1 < len {
        let half = len / 2;
        let less = sampled(row, v, lo + half) < j;
        lo += times(half, less);
        len -= half;
    }
    lo
}

// Skips w bytes at a time, while they end before the j-th bit that is v.
fn skip(row: Row, v: bool, from: Scan, w: usize, j: usize) -> Scan
    requires reached { Reached row v j (8 * from.byte) from.before }
    requires w_bound { 0 < w }
    ensures { Reached row.entry v j (8 * result.byte) result.before }
{
    let many = ((row.n + 7) / 8 - from.byte) / w;
    let mut before = from.before;
    for i in 0..many {
        let byte = from.byte + w * i;
        let here = of_kind(v, 8 * w, ones_in(row.bits, byte, byte + w));
        if j <= before + here {
            return Scan { byte, before };
        }
        before += here;
    }
    Scan {
        byte: from.byte + w * many,
        before,
    }
}

// Drops the w lowest of the bits that are left where the wanted bit lies behind them; no branch tells the two apart.
fn narrow(bits: &[u8], k: usize, v: bool, from: Left, w: usize, j: usize) -> Left
    requires { (w < 64) × InWord v bits.now k j (2 * w) from.bits from.place from.before }
    ensures { InWord v bits.now k j w result.bits result.place result.before }
{
    let here = of_kind(v, w, word_ones(from.bits % (1 << w)));
    let behind = from.before + here < j;
    let step = times(w, behind);
    Left {
        bits: from.bits >> step,
        place: from.place + step,
        before: from.before + times(here, behind),
    }
}

// The place of the j-th bit that is v, from a place on; n where the row has fewer.
fn find_bit(row: Row, v: bool, place: usize, before: usize, j: usize) -> usize
    requires { Reached row v j place before }
    ensures { result ≡ sequences.select (bit v) (content row.entry) j }
{
    let mut count = before;
    for i in place..row.n {
        if bits::bit(row.bits, i) == v as u8 {
            count += 1;
            if count == j {
                return i;
            }
        }
    }
    row.n
}

// The same from the word at byte k on, which is halved down to the bit.
fn find_in_word(row: Row, v: bool, k: usize, before: usize, j: usize) -> usize
    requires reached { Reached row v j (8 * k) before }
    requires k_bound { k + 8 ≤ row_bytes row.n }
    ensures { result ≡ sequences.select (bit v) (content row.entry) j }
{
    let whole = Left {
        bits: word(row.bits, k),
        place: 8 * k,
        before,
    };
    let half = narrow(row.bits, k, v, whole, 32, j);
    let quarter = narrow(row.bits, k, v, half, 16, j);
    let byte = narrow(row.bits, k, v, quarter, 8, j);
    let four = narrow(row.bits, k, v, byte, 4, j);
    let two = narrow(row.bits, k, v, four, 2, j);
    let one = narrow(row.bits, k, v, two, 1, j);
    find_bit(row, v, one.place, one.before, j)
}

// The j-th bit that is v, looked for in `many` blocks first; fewer than j are before them.
fn select_blocks(row: Row, v: bool, from: usize, many: usize, j: usize) -> usize
    requires many_bound { (0 < many) × (from + many ≤ sample_count row.n) × (count_below (bit v) row.bits.now (512 * from) < j) }
    ensures { result ≡ sequences.select (bit v) (content row.entry) j }
{
    let t = block_of(row, v, from, many, j);
    let block = Scan {
        byte: 64 * t,
        before: sampled(row, v, t),
    };
    let near = skip(row, v, block, 8, j);
    let k = near.byte;
    if k + 8 <= (row.n + 7) / 8 {
        return find_in_word(row, v, k, near.before, j);
    }
    let last = skip(row, v, near, 1, j);
    let end = last.byte;
    find_bit(row, v, 8 * end, last.before, j)
}

// The place of the j-th bit that is v, counted from 1; n where the row has fewer, and where j is 0.
pub fn select(row: Row, v: bool, j: usize) -> usize
    ensures { result ≡ sequences.select (bit v) (content row.entry) j }
{
    if j == 0 {
        return row.n;
    }
    if row.n == 0 {
        return 0;
    }
    select_blocks(row, v, 0, (row.n + 511) / 512, j)
}

// The same where fewer than j are below place a: the blocks of the places a up to e are looked at first.
pub fn select_near(row: Row, v: bool, a: usize, e: usize, j: usize) -> usize
    requires a_lt_e { (a < e) × (e ≤ row.n) × (sequences.rank (bit v) (content row) a < j) }
    ensures { result ≡ sequences.select (bit v) (content row.entry) j }
{
    let from = a / 512;
    select_blocks(row, v, from, (e + 511) / 512 - from, j)
}
