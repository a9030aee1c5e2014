// A question with what its terms weigh.
ghost use Rattle.weighted.specs.Weights.{Weighs};

use paths::Query;

// As the search takes it: one weight for each of the terms, and the rest are 0.
#[derive(Clone, Copy)]
pub struct Asking<'a, 't> {
    pub query: Query<'a, 't>,
    pub weights: [u32; 8],
    pub ghost weighs: { Weighs query.archive.bytes.now query.terms.now weights },
}
