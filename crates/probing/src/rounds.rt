// The rounds of probing: their steps, and whether another round is to come.
ghost use Rattle.std.specs.Prelude.{◌≡◌, ◌*◌, ◌^◌, ◌≤◌, ◌<◌, length};
ghost use Rattle.model.specs.Probing.{goes_on};
ghost use Rattle.model.specs.Queries.{pairs_in};
ghost use Rattle.probing.specs.Slices.{Power};

use crate::candidates::{Candidates, pair_at};

// The largest power of two up to m, and 1 for 0.
pub fn first_step(m: usize) -> usize
    requires { m < 2 ^ 16 }
    ensures power { Power result }
    ensures result_nonzero { (0 < result) × (result < 2 ^ 16) × (m < 2 * result) }
{
    1 << m.max(1).ilog2()
}

impl Candidates<'_> {
    // Whether another round follows the one with step g, after which an unseen document has at most g - 1 entries.
    pub fn goes_on(&self, g: usize) -> bool
        requires { (0 < g) × (0 < self.now.k) × (self.now.held ≤ 4096) × (2 * self.now.held ≤ length self.now.answers.now) }
        ensures { result ≡ goes_on self.now.k g (pairs_in self.now.answers.now self.now.held) }
    {
        let k = self.k;
        g > 1 && (self.held != k || (pair_at(self.answers, k - 1).count.0 as usize) < g)
    }
}
