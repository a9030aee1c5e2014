// A repeated term counts once: the first stands, later ones drop out.
ghost use Rattle.std.specs.Prelude.{◌≡◌, ◌≤◌, ◌<◌, get_or, length, take, eqb};
ghost use Rattle.model.specs.Lists.{any};
ghost use Rattle.model.specs.Distinct as model;
ghost use Rattle.paths.specs.Paths.{terms_of};

use paths::TermList;

// Whether the term at a place stands at one of the places before it.
fn stands_before(terms: &[u32], place: usize) -> bool
    requires { place < length terms.now }
    ensures { result ≡ any (eqb (get_or terms.now place 0)) (take place terms.now) }
{
    terms[..place].contains(&terms[place])
}

// The terms without the repeated ones.
pub fn distinct(terms: &[u32]) -> TermList
    requires { length terms.now ≤ 8 }
    ensures { terms_of result ≡ model.distinct terms.now }
{
    let mut numbers = [0u32; 8];
    let mut size: usize = 0;
    for (i, term) in terms.iter().enumerate() {
        if !stands_before(terms, i) {
            numbers[size] = *term;
            size += 1;
        }
    }
    TermList { numbers, size }
}
