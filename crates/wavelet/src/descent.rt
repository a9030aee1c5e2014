// Descents that follow one value: from a node to one below it, the entry at a place, and its count before a place.
ghost use Rattle.std.specs.Prelude.{◌≡◌, ◌-◌, ◌/◌, ◌%◌, ◌^◌, ◌≤◌, ◌<◌, get_or};
ghost use Rattle.bits.specs.Sequences as sequences;
ghost use Rattle.wavelet.specs.Levels.{entries_in, level_of};
ghost use Rattle.wavelet.specs.Spans.{Ordered, halves_of, half_of, span_at};
ghost use Rattle.wavelet.specs.Descents.{Leads, CountsUnder};

use crate::{Place, Tree};

impl Tree<'_> {
    // The bit of d that leads on from level j.
    pub fn bit_of(&self, d: usize, j: usize) -> usize
        requires j_lt_height { j < self.now.levels.height }
        ensures { result ≡ d / 2 ^ (self.now.levels.height - 1 - j) % 2 }
    {
        (d >> (self.levels.height - 1 - j)) % 2
    }

    // From a place of level j to its place in the half that a bit leads to. A bit is a number, here and in `half`: the walks also count with it.
    pub fn step(&self, j: usize, p: Place, bit: usize) -> Place
        requires j_lt_height { (j < self.now.levels.height) × Ordered self.now.levels.entries (span_at p) }
        ensures { span_at result ≡ half_of (halves_of (level_of self.now.bytes.now self.now.levels j) (span_at p)) bit }
    {
        let before = self.ones(j, p.start);
        let at = self.map_end(j, p.start, before, p.start, 0, p.at);
        let all = self.map_end(j, p.start, before, p.at, at.ones, p.end);
        let middle = p.start + all.zeros;
        if bit == 1 {
            Place {
                start: middle,
                at: middle + at.ones,
                end: p.end,
            }
        } else {
            Place {
                start: p.start,
                at: p.start + at.zeros,
                end: middle,
            }
        }
    }

    // Down from level j to level k, by the bits of d.
    pub fn descend(&self, j: usize, p: Place, d: usize, k: usize) -> Place
        requires j_le_k { (j ≤ k) × (k ≤ self.now.levels.height) × (d < 2 ^ self.now.levels.height) × Ordered self.now.levels.entries (span_at p) }
        ensures { Leads self.now.bytes.now self.now.levels d j p k result × Ordered self.now.levels.entries (span_at result) }
    {
        let mut place = p;
        for i in j..k {
            place = self.step(i, place, self.bit_of(d, i));
        }
        place
    }

    // The entry at place i: down by the bits that stand at its places.
    pub fn access(&self, i: usize) -> usize
        requires i_lt_entries { i < self.now.levels.entries }
        ensures { result ≡ get_or (entries_in self.now.bytes.now self.now.levels) i 0 }
    {
        let mut p = Place {
            start: 0,
            at: i,
            end: self.levels.entries,
        };
        let mut entry = 0;
        for j in 0..self.levels.height {
            let b = self.bit(j, p.at) as usize;
            p = self.step(j, p, b);
            entry = 2 * entry + b;
        }
        entry
    }

    // How many entries of the node of level k that holds d stand before a place, by that place in the node of level j: the last row is only counted.
    pub fn count_under(&self, j: usize, p: Place, d: usize, k: usize) -> usize
        requires j_le_k { (j ≤ k) × (k ≤ self.now.levels.height) × (d < 2 ^ self.now.levels.height) × Ordered self.now.levels.entries (span_at p) }
        ensures { CountsUnder self.now.bytes.now self.now.levels d j p k result }
    {
        if j == k {
            return p.at - p.start;
        }
        let node = self.descend(j, p, d, k - 1);
        let ones = self.ones_between(k - 1, node.start, node.at);
        if self.bit_of(d, k - 1) == 1 {
            ones
        } else {
            node.at - node.start - ones
        }
    }

    // How many of the entries before place i are d: down by the bits of d.
    pub fn rank(&self, d: usize, i: usize) -> usize
        requires d_bound { (d < 2 ^ self.now.levels.height) × (i ≤ self.now.levels.entries) }
        ensures { result ≡ sequences.rank d (entries_in self.now.bytes.now self.now.levels) i }
    {
        let root = Place {
            start: 0,
            at: i,
            end: self.levels.entries,
        };
        self.count_under(0, root, d, self.levels.height)
    }
}
