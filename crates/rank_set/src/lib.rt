// The count of a set of documents before a place, by one descent for the whole set (document 02, M-106). A name that ends in `_opened` is the question of an
// archive that was opened before; one that ends in `_in` is that without the refusals.
#![tactic(auto)]

use wavelet::Place;

mod nodes;
mod question;
mod sets;

pub use question::{rank_set, rank_set_in, rank_set_opened};

// A place of a node, in its zero half and in its one half.
#[derive(Clone, Copy)]
pub struct Places {
    pub zero: Place,
    pub one: Place,
}
