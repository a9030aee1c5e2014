// Questions on the entries a up to but without b: how many are below a value, and which has a rank.
ghost use Rattle.std.specs.Prelude.{◌≡◌, ◌-◌, ◌^◌, ◌≤◌, ◌<◌, ltb};
ghost use Rattle.bits.specs.Sequences.{tally};
ghost use Rattle.model.specs.Lists.{part};
ghost use Rattle.wavelet.specs.Levels.{entries_in};
ghost use Rattle.wavelet.specs.Spans.{span, Ordered};
ghost use Rattle.wavelet.specs.Ranges.{leaf_of, quantile_in};

use crate::{Counted, Span, Tree};

impl Tree<'_> {
    // How many entries of the range are below v: down by the bits of v, and at each 1 those of the zero half.
    pub fn count_below(&self, a: usize, b: usize, v: usize) -> usize
        requires a_le_b { (a ≤ b) × (b ≤ self.now.levels.entries) }
        ensures { result ≡ tally (λ x. ltb x v) (part a b (entries_in self.now.bytes.now self.now.levels)) }
    {
        if v >> self.levels.height != 0 {
            return b - a;
        }
        let mut s = Span {
            start: 0,
            lo: a,
            hi: b,
            end: self.levels.entries,
        };
        let mut below = 0;
        for j in 0..self.levels.height {
            let two = self.halve(j, s);
            let bit = self.bit_of(v, j);
            below += bit * (two.zero.hi - two.zero.lo);
            s = two.half(bit);
        }
        below
    }

    // The leaf of rank r in the range lo to hi of the node q of level j, which spans start to end. The zero half is tried first: it has the leaf
    // where r is below its count, and else the one half has, past that count. Rows that remain fall at each call.
    // The places pass as numbers: a struct would be copied on the way.
    fn leaf_of(
        &self,
        j: usize,
        q: usize,
        start: usize,
        lo: usize,
        hi: usize,
        end: usize,
        r: usize,
    ) -> Counted
        requires j_le_height { (j ≤ self.now.levels.height) × (q < 2 ^ j) × Ordered self.now.levels.entries (span start lo hi end) }
        ensures { result ≡ leaf_of self.now.bytes.now self.now.levels j q (span start lo hi end) r }
    {
        if j == self.levels.height {
            return Counted {
                document: q,
                count: hi - lo,
            };
        }
        let two = self.halve(j, Span { start, lo, hi, end });
        let zeros = two.zero.hi - two.zero.lo;
        let bit = (zeros <= r) as usize;
        let s = two.half(bit);
        self.leaf_of(
            j + 1,
            2 * q + bit,
            s.start,
            s.lo,
            s.hi,
            s.end,
            r - bit * zeros,
        )
    }

    // The document of rank r in the range, and its count there.
    pub fn quantile(&self, a: usize, b: usize, r: usize) -> Counted
        requires a_le_b { (a ≤ b) × (b ≤ self.now.levels.entries) × (r < b - a) }
        ensures { result ≡ quantile_in (part a b (entries_in self.now.bytes.now self.now.levels)) r }
    {
        self.leaf_of(0, 0, 0, a, b, self.levels.entries, r)
    }
}
