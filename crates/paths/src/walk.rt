// From node to node of the tree with the ranges of all terms: only what lies below the deepest node in common is walked again.
ghost use Rattle.std.specs.Prelude.{◌≡◌, ◌+◌, ◌*◌, ◌^◌, ◌≤◌, ◌<◌, length};
ghost use Rattle.paths.specs.Paths.{pair_in, passed_in, OrderedIfAny, put_halves, HeldWhole};
ghost use Rattle.paths.specs.Query.{size, passes, bits, RanksItself};
ghost use Rattle.paths.specs.Ways.{Inside, Meets};

use crate::path::frame_of;
use crate::{Node, Query};
use answers::put_pair;
use wavelet::Ranked;

// The lowest level where the ways to two nodes have come from one node above.
fn meet(from: Node, to: Node) -> usize
    requires { Inside from × Inside to }
    ensures { Meets from to result }
{
    let mut j = from.level.min(to.level);
    // up until the ways meet, at the root at last: `find` would answer an Option that is never None
    while (from.number >> (from.level - j)) / 2 != (to.number >> (to.level - j)) / 2 {
        j -= 1;
    }
    j
}

impl Query<'_, '_> {
    // The range of one term in both halves, as in `part_term`. An empty one goes down as it is, and nothing is ranked.
    fn pass_term(&self, level: usize, node: Ranked, from: usize, to: usize, path: &mut [u32])
        requires { (level < self.now.archive.layout.levels.height) × RanksItself self.now level node × (from < 234) × (to + 9 < 234)
            × (length path.old ≡ 468) × OrderedIfAny self.now.archive.layout.levels.entries (pair_in node path.old from) }
        ensures { path.new ≡ put_halves (passed_in (bits self.now level) node path.old from) to path.old }
    {
        let lo = path[2 * from] as usize;
        let hi = path[2 * from + 1] as usize;
        if hi <= lo {
            put_pair(path, to, lo, hi);
            put_pair(path, to + 9, lo, hi);
            return;
        }
        self.part_term(level, node, from, to, path);
    }

    // From a node to its halves, whatever entries the terms have in it.
    fn open_whole(&self, level: usize, number: usize, path: &mut [u32])
        requires path_len { (length path.old ≡ 468) × (level < self.now.archive.layout.levels.height) × (level < 12) × (number < 2 ^ level) }
        requires held_whole { HeldWhole (passes self.now) (size self.now) path.old level number }
        ensures { HeldWhole (passes self.now) (size self.now) path.new (level + 1) (2 * number) }
    {
        let node = self.put_bounds(level, number, path);
        let frame = frame_of(level, number);
        let below = 18 * (level + 1);
        for k in 0..self.terms.len() {
            self.pass_term(level, node, frame + 1 + k, below + 1 + k, path);
        }
    }

    // From the path of one node to that of another.
    pub fn go_to(&self, from: Node, to: Node, path: &mut [u32])
        requires path_len { (length path.old ≡ 468) × Inside from × Inside to × (to.level ≤ self.now.archive.layout.levels.height) }
        requires held_whole { HeldWhole (passes self.now) (size self.now) path.old from.level from.number }
        ensures { HeldWhole (passes self.now) (size self.now) path.new to.level to.number }
    {
        for j in meet(from, to)..to.level {
            self.open_whole(j, to.number >> (to.level - j), path);
        }
    }
}
