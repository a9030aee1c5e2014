// Rank by the samples. Inside the row the ones are counted from the nearer of two samples, over four words under masks,
// so that no branch depends on the place; in the last block they are counted from its sample on.
ghost use Rattle.std.specs.Prelude.{◌≡◌, ◌+◌, ◌-◌, ◌*◌, ◌/◌, ◌%◌, ◌^◌, ◌≤◌, ◌<◌, length};
ghost use Rattle.std.specs.Int.Count.{ones};
ghost use Rattle.bits.specs.Sequences as sequences;
ghost use Rattle.bits.specs.Sequences.{bit};
ghost use Rattle.bits.specs.Row.{content};
ghost use Rattle.bits.specs.Rows.{count_below, word_at};
ghost use Rattle.bit_rank.specs.Near.{kept, near_ones};

use bits::{Row, number, of_kind, ones_in, tail_ones, word, word_ones};

// All bits where bit 2 of u is 0, else none.
fn mask(u: u64) -> u64
    ensures { result ≡ kept (u / 4 % 2) (2 ^ 64 - 1) }
{
    (1 - u / 4 % 2) * 18446744073709551615
}

// The ones of the word at byte k where bit 2 of u is 0, else 0.
fn kept_ones(row: &[u8], k: usize, u: u64) -> usize
    requires { k + 8 ≤ length row.now }
    ensures { (result ≡ kept (u / 4 % 2) (ones (word_at row.now k))) × (result ≤ 64) }
{
    word_ones(word(row, k) & mask(u))
}

// What the bits below bit s of the word at byte k add to the ones below.
fn low_word_ones(row: &[u8], k: usize, s: usize) -> usize
    requires { (k + 8 ≤ length row.now) × (s < 64) }
    ensures { (count_below 1 row.now (8 * k + s) ≡ count_below 1 row.now (8 * k) + result) × (result ≤ 64) }
{
    word_ones(word(row, k) % (1 << s))
}

// Of the four words at byte k: the ones below word w (h = 0), or from word w on (h = 1). A word counts where bit 2 of
// 4 + 4 * h - w + its number is 0.
fn near_ones(row: &[u8], k: usize, h: usize, w: usize) -> usize
    requires { (k + 32 ≤ length row.now) × (h < 2) × (w < 4) }
    ensures { (result ≡ near_ones h row.now k w) × (result ≤ 256) }
{
    let u = (4 + 4 * h - w) as u64;
    kept_ones(row, k, u)
        + kept_ones(row, k + 8, u + 1)
        + kept_ones(row, k + 16, u + 2)
        + kept_ones(row, k + 24, u + 3)
}

// What to take off so that a count of a from behind is taken off and not added.
fn twice_behind(h: usize, a: usize) -> usize
    requires { (h < 2) × (a ≤ 256) }
    ensures { result ≡ kept (1 - h) (2 * a) }
{
    h * (2 * a)
}

// The ones below place i, from the nearer sample. Block i / 512 is whole and has a block behind it.
fn near(row: Row, i: usize) -> usize
    requires i_bound { 512 * (i / 512) + 512 < row.n }
    ensures { result ≡ count_below 1 row.entry.bits.now i }
{
    let t = i / 512;
    let h = i % 512 / 256;
    let w = i % 256 / 64;
    let k = 64 * t + 32 * h;
    let base = number(row.samples, 4 * (t + h));
    let tail = low_word_ones(row.bits, k + 8 * w, i % 64);
    let a = near_ones(row.bits, k, h, w);
    base + tail + a - twice_behind(h, a)
}

// The ones below place i, from the last sample before it.
fn from_sample(row: Row, i: usize) -> usize
    requires i_le_n { i ≤ row.n }
    ensures { result ≡ count_below 1 row.entry.bits.now i }
{
    if i == 0 {
        return 0;
    }
    let t = (i - 1) / 512;
    number(row.samples, 4 * t) + ones_in(row.bits, 64 * t, i / 8) + tail_ones(row.bits, i)
}

// The ones below place i. At i = 0 there may be no sample, and at i = n none number i / 512.
pub fn rank1(row: Row, i: usize) -> usize
    requires i_le_n { i ≤ row.n }
    ensures { (result ≡ sequences.rank 1 (content row.entry) i) × (result ≤ i) }
{
    if 512 * (i / 512) + 512 < row.n {
        return near(row, i);
    }
    from_sample(row, i)
}

// How many of the bits below place i are v.
pub fn rank(row: Row, v: bool, i: usize) -> usize
    requires i_le_n { i ≤ row.n }
    ensures { (result ≡ sequences.rank (bit v) (content row.entry) i) × (result ≤ i) }
{
    of_kind(v, i, rank1(row, i))
}
