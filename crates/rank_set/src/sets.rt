// Sets of documents as ascending numbers: whether they ascend, how large they get, and how they part at a node of the tree.
ghost use Rattle.std.specs.Prelude.{◌≡◌, true, ℕ, ◌/◌, ◌^◌, ◌≤◌, ◌<◌, length, leb};
ghost use Rattle.model.specs.Lists.{any};
ghost use Rattle.model.specs.RankSet.{ascending};
ghost use Rattle.rank_set.specs.Sets.{Front};

// Whether each number is below all that follow it: below the next is enough.
pub fn is_ascending(set: &[u32]) -> bool
    ensures { result ≡ ascending set.now }
{
    for i in 1..set.len() {
        if set[i] <= set[i - 1] {
            return false;
        }
    }
    true
}

// Whether a set has a number that is not below the limit: its last one is the largest.
pub fn reaches(set: &[u32], limit: usize) -> bool
    requires { ascending set.now ≡ true }
    ensures { result ≡ any (leb limit) set.now }
{
    if set.len() == 0 {
        return false;
    }
    limit <= set[set.len() - 1] as usize
}

// The height of the lowest common ancestor of two leaves: the fewest last bits without which the two documents agree.
pub fn lca_height(x: usize, y: usize) -> usize
    requires { (x < 4096) × (y < 4096) }
    ensures { (x / 2 ^ result ≡ y / 2 ^ result) × ((k : ℕ) → x / 2 ^ k ≡ y / 2 ^ k → result ≤ k) }
{
    // counts bits, no index: a search by `find` would answer an Option that is never None
    let mut height: usize = 0;
    while x >> height != y >> height {
        height += 1;
    }
    height
}

// How many documents from the first on agree with it but for their last bits.
pub fn front_size(set: &[u32], bits: usize) -> usize
    requires { (0 < length set.now) × (bits < 32) }
    ensures { Front set.now bits result }
{
    let first = (set[0] as usize) >> bits;
    for (size, document) in set.iter().enumerate() {
        if (*document as usize) >> bits != first {
            return size;
        }
    }
    set.len()
}
