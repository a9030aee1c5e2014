// What both searches for top-k take: the tree with the range in it, and a work slice that is cleared at the end.
#![tactic(auto)]

ghost use Rattle.std.specs.Prelude.{◌≡◌, ◌*◌, ◌≤◌, length, replicate};
ghost use Rattle.model.specs.Lists.{overwrite};
ghost use Rattle.search.specs.Searchable.{Searchable, Searchable-prop};

use wavelet::Tree;

// What is searched: a tree over N documents, and in it the entries a up to but without b.
#[derive(Clone, Copy)]
pub struct Search<'a> {
    pub tree: Tree<'a>,
    pub documents: usize,
    pub a: usize,
    pub b: usize,
    pub ghost searchable: { Searchable tree.bytes.now tree.levels documents a b } by { Searchable-prop tree.bytes.now tree.levels documents a b },
}

// Sets the first n numbers to 0; the rest stays.
pub fn clear(work: &mut [u32], n: usize)
    requires { n ≤ length work.old }
    ensures { work.new ≡ overwrite (replicate n 0) work.old }
{
    work[..n].fill(0);
}

// Sets the numbers of the work slice that a search of so many documents may use to 0, four for each; the rest stays.
pub fn finish(documents: usize, work: &mut [u32])
    requires { 4 * documents ≤ length work.old }
    ensures { work.new ≡ overwrite (replicate (4 * documents) 0) work.old }
{
    clear(work, 4 * documents);
}
