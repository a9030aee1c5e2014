// What the terms weigh.
ghost use Rattle.std.specs.Prelude.{◌≡◌, ◌<◌};
ghost use Rattle.model.specs.Opening.{contents};
ghost use Rattle.model.specs.Weighted.{weighed_term};
ghost use Rattle.weighted.specs.Weights.{Weighs};

use archive::Archive;
use archive_ranges::term_start;
use paths::Query;
use weights::{distinct_in, weight_of};

// One term, by the different documents it has.
fn weight_in(archive: &Archive<'_>, term: usize) -> u32
    requires { term < archive.now.layout.terms }
    ensures { result ≡ (weighed_term (contents archive.now.bytes.now) term).weight }
{
    let a = term_start(archive, term);
    let b = term_start(archive, term + 1);
    let tree = archive.tree();
    let df = distinct_in(&tree, a, b);
    weight_of(archive.layout.documents as u32, df as u32)
}

// Each of the terms; the rest are 0.
pub fn weigh(query: &Query<'_, '_>) -> [u32; 8]
    ensures { Weighs query.now.archive.bytes.now query.now.terms.now result }
{
    let mut weights = [0u32; 8];
    for (k, term) in query.terms.iter().enumerate() {
        weights[k] = weight_in(&query.archive, *term as usize);
    }
    weights
}
