// The score of a node, from its frame in the path.
ghost use Rattle.std.specs.Prelude.{◌≡◌, ℕ, ◌+◌, ◌*◌, ◌^◌, ◌≤◌, ◌<◌, length, get_or};
ghost use Rattle.paths.specs.Paths.{count_at};
ghost use Rattle.weighted.specs.Totals.{total};

// The sum of weight * count over the terms, and the sum of their counts: the node lives where that is not 0.
#[derive(Clone, Copy)]
pub struct Score {
    pub score: usize,
    pub entries: usize,
}

// The entries of one term.
fn count_at(path: &[u32], frame: usize, k: usize) -> usize
    requires { (length path.now ≡ 468) × (frame + 9 ≤ 234) × (k < 8) }
    ensures { (result ≡ count_at path.now frame k) × (result < 4294967296) }
{
    let pair = 2 * (frame + 1 + k);
    let lo = path[pair] as usize;
    let hi = path[pair + 1] as usize;
    if hi <= lo {
        return 0;
    }
    hi - lo
}

pub fn score_of(path: &[u32], frame: usize, weights: [u32; 8], size: usize) -> Score
    requires { (length path.now ≡ 468) × (frame + 9 ≤ 234) × (size ≤ 8) × ((k : ℕ) → k < size → get_or weights k 0 ≤ 48) }
    ensures { (result.score ≡ total (λ k. get_or weights k 0 * count_at path.now frame k) size)
        × (result.entries ≡ total (count_at path.now frame) size) }
{
    let mut score: usize = 0;
    let mut entries: usize = 0;
    for k in 0..size {
        let count = count_at(path, frame, k);
        let weight = weights[k] as usize;
        score += weight * count;
        entries += count;
    }
    Score { score, entries }
}
