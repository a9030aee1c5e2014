// Halving a node with a range in it, by the steps of document 004, section 3.1, in the order of its text (document 02, M-103):
// 1. map the lower end, 2. map the upper end, 3. the zero half, 4. the one half. Every question that halves a node does so here, and tries the
// zero half first. The paper's B_v is the row from the node's start up to its end; a place p is mapped to rank_b(B_v, p), for b = 0 and b = 1.
ghost use Rattle.std.specs.Prelude.{◌≡◌, ◌+◌, ◌≤◌, ◌<◌};
ghost use Rattle.bits.specs.Sequences.{rank};
ghost use Rattle.wavelet.specs.Levels.{level_of};
ghost use Rattle.wavelet.specs.Spans.{Ordered, Maps, halves_at, halves_of, half_of, ranked_of, span_in};

use crate::{Halves, Known, Mapped, Ranked, Span, Tree};

// Steps 3 and 4: the halves of the node from start up to end, which meet at `middle`, by the mapped ends of the range.
fn take_halves(start: usize, middle: usize, end: usize, lower: Mapped, upper: Mapped) -> Halves
    requires { Ordered 65535 (halves_at start middle end lower upper).zero × Ordered 65535 (halves_at start middle end lower upper).one }
    ensures { result ≡ halves_at start middle end lower upper }
{
    // Step 3: the zero half, from the node's start.
    let zero = Span {
        start,
        lo: start + lower.zeros,
        hi: start + upper.zeros,
        end: middle,
    };
    // Step 4: the one half, from where the zero half ends.
    let one = Span {
        start: middle,
        lo: middle + lower.ones,
        hi: middle + upper.ones,
        end,
    };
    Halves { zero, one }
}

impl Tree<'_> {
    // Steps 1 and 2: a place p of a node, mapped to both halves. The node starts at `start`, and `before` ones of its row are before it. Its ones are
    // counted on from x, a place that is not behind p: k of them are before x.
    pub(crate) fn map_end(
        &self,
        j: usize,
        start: usize,
        before: usize,
        x: usize,
        k: usize,
        p: usize,
    ) -> Mapped
        requires j_lt_height { (j < self.now.levels.height) × (start ≤ x) × (x ≤ p) × (p ≤ self.now.levels.entries) }
        requires before_value { (before ≡ rank 1 (level_of self.now.bytes.now self.now.levels j) start) × (before + k ≡ rank 1 (level_of self.now.bytes.now self.now.levels j) x) }
        ensures { Maps (level_of self.now.bytes.now self.now.levels j) start p result }
    {
        let ones = self.ones_from(j, x, before + k, p) - before;
        Mapped {
            zeros: p - start - ones,
            ones,
        }
    }

    // The halves of a node of level j, in the level below.
    pub fn halve(&self, j: usize, s: Span) -> Halves
        requires j_lt_height { (j < self.now.levels.height) × Ordered self.now.levels.entries s }
        ensures { (result ≡ halves_of (level_of self.now.bytes.now self.now.levels j) s) × Ordered self.now.levels.entries result.zero × Ordered self.now.levels.entries result.one }
    {
        let before = self.ones(j, s.start);
        self.halve_known(j, s, before).two
    }

    // The same where the ones before the node are known, and the ones before its end. It is copied into what calls it: kept as a call of its own it cost
    // each halving 5 to 17 % more instructions, with the halves copied through memory.
    #[inline(always)]
    pub fn halve_known(&self, j: usize, s: Span, before: usize) -> Known
        requires j_lt_height { (j < self.now.levels.height) × Ordered self.now.levels.entries s × (before ≡ rank 1 (level_of self.now.bytes.now self.now.levels j) s.start) }
        ensures two_value { (result.two ≡ halves_of (level_of self.now.bytes.now self.now.levels j) s) × (result.after ≡ rank 1 (level_of self.now.bytes.now self.now.levels j) s.end) }
        ensures ordered { Ordered self.now.levels.entries result.two.zero × Ordered self.now.levels.entries result.two.one }
    {
        // Step 1: map the lower end.
        let lower = self.map_end(j, s.start, before, s.start, 0, s.lo);
        // Step 2: map the upper end.
        let upper = self.map_end(j, s.start, before, s.lo, lower.ones, s.hi);
        // The node's end, mapped: where the halves meet.
        let all = self.map_end(j, s.start, before, s.hi, upper.ones, s.end);
        // Steps 3 and 4.
        let two = take_halves(s.start, s.start + all.zeros, s.end, lower, upper);
        Known {
            two,
            after: before + all.ones,
        }
    }

    // A node of level j for several ranges: the ones before it, and where its halves meet.
    pub fn rank_node(&self, j: usize, start: usize, end: usize) -> Ranked
        requires j_lt_height { (j < self.now.levels.height) × (start ≤ end) × (end ≤ self.now.levels.entries) }
        ensures { result ≡ ranked_of (level_of self.now.bytes.now self.now.levels j) start end }
    {
        let before = self.ones(j, start);
        let all = self.map_end(j, start, before, start, 0, end);
        Ranked {
            start,
            end,
            before,
            middle: start + all.zeros,
        }
    }

    // The halves of such a node, with one of the ranges in them: two ranks each.
    pub fn halve_range(&self, j: usize, node: Ranked, lo: usize, hi: usize) -> Halves
        requires j_lt_height { (j < self.now.levels.height) × (node ≡ ranked_of (level_of self.now.bytes.now self.now.levels j) node.start node.end) × Ordered self.now.levels.entries (span_in node lo hi) }
        ensures { (result ≡ halves_of (level_of self.now.bytes.now self.now.levels j) (span_in node lo hi)) × Ordered self.now.levels.entries result.zero × Ordered self.now.levels.entries result.one }
    {
        // Steps 1 and 2.
        let lower = self.map_end(j, node.start, node.before, node.start, 0, lo);
        let upper = self.map_end(j, node.start, node.before, lo, lower.ones, hi);
        // Steps 3 and 4.
        take_halves(node.start, node.middle, node.end, lower, upper)
    }
}

impl Halves {
    // The half that a bit leads to.
    pub fn half(&self, bit: usize) -> Span
        ensures { result ≡ half_of self.now bit }
    {
        if bit == 1 { self.one } else { self.zero }
    }
}
