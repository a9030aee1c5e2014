// One level of the tree: its row with the samples, and what bit_rows says of it.
ghost use Rattle.std.specs.Prelude.{◌≡◌, ◌-◌, ◌≤◌, ◌<◌, get_or};
ghost use Rattle.bits.specs.Row.{content};
ghost use Rattle.bits.specs.Sequences.{rank};
ghost use Rattle.wavelet.specs.Levels.{samples_in, row_in, level_of};

use crate::Tree;
use bit_rows::Row;

impl<'a> Tree<'a> {
    // The samples of level j.
    pub fn samples_at(&self, j: usize) -> &'a [u8]
        requires j_lt_height { j < self.now.levels.height }
        ensures { result.now ≡ samples_in self.now.bytes.now self.now.levels j }
    {
        let w = 4 * ((self.levels.entries + 511) / 512);
        let a = self.levels.samples + j * w;
        &self.bytes[a..a + w]
    }

    // The bytes of level j.
    pub fn bits_at(&self, j: usize) -> &'a [u8]
        requires j_lt_height { j < self.now.levels.height }
        ensures { result.now ≡ row_in self.now.bytes.now self.now.levels j }
    {
        let w = (self.levels.entries + 7) / 8;
        let a = self.levels.rows + j * w;
        &self.bytes[a..a + w]
    }

    // The row of level j.
    pub fn row_at(&self, j: usize) -> Row<'a>
        requires j_lt_height { j < self.now.levels.height }
        ensures { (result.n ≡ self.now.levels.entries) × (content result ≡ level_of self.now.bytes.now self.now.levels j) }
    {
        Row {
            samples: self.samples_at(j),
            bits: self.bits_at(j),
            n: self.levels.entries,
        }
    }

    // The bit of level j at place p.
    pub fn bit(&self, j: usize, p: usize) -> u8
        requires j_lt_height { (j < self.now.levels.height) × (p < self.now.levels.entries) }
        ensures { (result ≡ get_or (level_of self.now.bytes.now self.now.levels j) p 0) × (result < 2) }
    {
        bit_rows::bit(self.bits_at(j), p)
    }

    // The ones of level j before place p.
    pub fn ones(&self, j: usize, p: usize) -> usize
        requires j_lt_height { (j < self.now.levels.height) × (p ≤ self.now.levels.entries) }
        ensures { (result ≡ rank 1 (level_of self.now.bytes.now self.now.levels j) p) × (result ≤ p) }
    {
        bit_rows::rank1(self.row_at(j), p)
    }

    // The same before place y, where c stand before place x that is not behind it.
    pub fn ones_from(&self, j: usize, x: usize, c: usize, y: usize) -> usize
        requires j_lt_height { (j < self.now.levels.height) × (x ≤ y) × (y ≤ self.now.levels.entries) × (c ≡ rank 1 (level_of self.now.bytes.now self.now.levels j) x) }
        ensures { (result ≡ rank 1 (level_of self.now.bytes.now self.now.levels j) y) × (c ≤ result) × (result ≤ y) }
    {
        bit_rows::rank1_from(self.row_at(j), x, c, y)
    }

    // The ones of level j from place x up to but without y.
    pub fn ones_between(&self, j: usize, x: usize, y: usize) -> usize
        requires j_lt_height { (j < self.now.levels.height) × (x ≤ y) × (y ≤ self.now.levels.entries) }
        ensures { result ≡ rank 1 (level_of self.now.bytes.now self.now.levels j) y - rank 1 (level_of self.now.bytes.now self.now.levels j) x }
    {
        bit_rows::ones_between(self.row_at(j), x, y)
    }
}
