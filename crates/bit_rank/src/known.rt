// Rank onward from a place, and the ones between two: a short way is counted in one word, without the samples.
ghost use Rattle.std.specs.Prelude.{◌≡◌, ◌+◌, ◌-◌, ◌/◌, ◌≤◌, length};
ghost use Rattle.bits.specs.Sequences.{rank};
ghost use Rattle.bits.specs.Row.{content};
ghost use Rattle.bits.specs.Rows.{count_below};

use crate::counts::rank1;
use bits::{Row, word, word_ones};

// What the m bits from place x on, which lie in the word at byte x / 8, add to the ones below.
fn ones_onward(row: &[u8], x: usize, m: usize) -> usize
    requires { (x / 8 + 8 ≤ length row.now) × (m ≤ 56) }
    ensures { (count_below 1 row.now (x + m) ≡ count_below 1 row.now x + result) × (result ≤ 64) }
{
    word_ones((word(row, x / 8) >> (x % 8)) % (1 << m))
}

// The ones below place y, where c are below place x before it.
pub fn rank1_from(row: Row, x: usize, c: usize, y: usize) -> usize
    requires x_le_y { (x ≤ y) × (y ≤ row.n) × (c ≡ rank 1 (content row) x) }
    ensures { (result ≡ rank 1 (content row.entry) y) × (result ≤ y) }
{
    if y - x <= 56 && x / 8 + 8 <= row.bits.len() {
        return c + ones_onward(row.bits, x, y - x);
    }
    rank1(row, y)
}

// The ones from place x up to but without y.
pub fn ones_between(row: Row, x: usize, y: usize) -> usize
    requires x_le_y { (x ≤ y) × (y ≤ row.n) }
    ensures { result ≡ rank 1 (content row.entry) y - rank 1 (content row.entry) x }
{
    let m = y - x;
    if m <= 56 && x / 8 + 8 <= row.bits.len() {
        return ones_onward(row.bits, x, m);
    }
    let before = rank1(row, x);
    rank1(row, y) - before
}
