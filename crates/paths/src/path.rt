// The path of a search with several terms: where the ranges of the terms lie in the two halves of every level, from the root down to the
// node that is searched. It is pairs in a slice, a frame for each half: the bounds of its node, and the two places of each term.
ghost use Rattle.std.specs.Prelude.{◌≡◌, ◌+◌, ◌*◌, ◌^◌, ◌≤◌, ◌<◌, length, get_or};
ghost use Rattle.wavelet.specs.Spans.{Ordered};
ghost use Rattle.paths.specs.Paths.{frame_of, pair_in, halves_in, put_halves, bounds_of, sides_of, Whole, Held};
ghost use Rattle.paths.specs.Query.{size, spans, bits, Known, RanksItself};

use crate::Query;
use answers::put_pair;
use archive_ranges::term_start;
use wavelet::Ranked;

// How many entries a term has in the zero half and in the one half of a node.
#[derive(Clone, Copy)]
pub struct Sides {
    pub zero: usize,
    pub one: usize,
}

// The frame of a node, as a number of pairs.
pub fn frame_of(level: usize, number: usize) -> usize
    requires { level ≤ 12 }
    ensures { result ≡ frame_of level number }
{
    18 * level + 9 * (number % 2)
}

impl Query<'_, '_> {
    // The range of one term, pair `from` of the node's frame, in both halves: pair `to` of the zero half's frame and the same of the one half's.
    pub(crate) fn part_term(
        &self,
        level: usize,
        node: Ranked,
        from: usize,
        to: usize,
        path: &mut [u32],
    ) -> Sides
        requires { (level < self.now.archive.layout.levels.height) × RanksItself self.now level node × (from < 234) × (to + 9 < 234)
            × (length path.old ≡ 468) × Ordered self.now.archive.layout.levels.entries (pair_in node path.old from) }
        ensures { (path.new ≡ put_halves (halves_in (bits self.now level) node path.old from) to path.old)
            × (result ≡ sides_of (halves_in (bits self.now level) node path.old from)) }
    {
        let lo = path[2 * from] as usize;
        let hi = path[2 * from + 1] as usize;
        let tree = self.archive.tree();
        let two = tree.halve_range(level, node, lo, hi);
        let zero = two.zero;
        let one = two.one;
        put_pair(path, to, zero.lo, zero.hi);
        put_pair(path, to + 9, one.lo, one.hi);
        Sides {
            zero: zero.hi - zero.lo,
            one: one.hi - one.lo,
        }
    }

    // The root: the bounds of the terms, read from the term table.
    pub fn put_root(&self, path: &mut [u32])
        requires { length path.old ≡ 468 }
        ensures { Whole (spans self.now) (size self.now) path.new 0 0 }
    {
        put_pair(path, 0, 0, self.archive.layout.levels.entries);
        for (k, term) in self.terms.iter().enumerate() {
            let term = *term as usize;
            let a = term_start(&self.archive, term);
            let b = term_start(&self.archive, term + 1);
            put_pair(path, 1 + k, a, b);
        }
    }

    // The bounds of both halves of a node, by those in its frame. Answers the node, with its ranks.
    pub(crate) fn put_bounds(&self, level: usize, number: usize, path: &mut [u32]) -> Ranked
        requires path_len { (length path.old ≡ 468) × (level < self.now.archive.layout.levels.height) × (level < 12) × (number < 2 ^ level) }
        requires bounds { (get_or path.old (2 * frame_of level number) 0 ≡ (spans self.now level number 0).start)
            × (get_or path.old (2 * frame_of level number + 1) 0 ≡ (spans self.now level number 0).end) }
        ensures known { Known self.now level number result }
        ensures put { path.new ≡ put_halves (bounds_of result) (18 * (level + 1)) path.old }
    {
        let frame = frame_of(level, number);
        let below = 18 * (level + 1);
        let start = path[2 * frame] as usize;
        let end = path[2 * frame + 1] as usize;
        let tree = self.archive.tree();
        let node = tree.rank_node(level, start, end);
        put_pair(path, below, node.start, node.middle);
        put_pair(path, below + 9, node.middle, node.end);
        node
    }

    // From a node where every term has entries to its halves. It ends as soon as each half has no entry of some term.
    pub fn open_node(&self, level: usize, number: usize, path: &mut [u32])
        requires path_len { (length path.old ≡ 468) × (level < self.now.archive.layout.levels.height) × (level < 12) × (number < 2 ^ level) }
        requires held { Held (spans self.now) (size self.now) path.old level number
            × Whole (spans self.now) (size self.now) path.old level number }
        ensures { Held (spans self.now) (size self.now) path.new (level + 1) (2 * number) }
    {
        let node = self.put_bounds(level, number, path);
        let frame = frame_of(level, number);
        let below = 18 * (level + 1);
        let mut zero: usize = 1;
        let mut one: usize = 1;
        for k in 0..self.terms.len() {
            if zero == 0 && one == 0 {
                return;
            }
            let sides = self.part_term(level, node, frame + 1 + k, below + 1 + k, path);
            zero = zero.min(sides.zero);
            one = one.min(sides.one);
        }
    }
}
