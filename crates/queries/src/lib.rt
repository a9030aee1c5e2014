// The questions of an archive for a number, each with its refusals. A name that ends in `_opened` is the question of an archive that was opened before; one that
// ends in `_in` is that without the refusals.
#![tactic(auto)]

mod entry;
mod numbers;
mod quantiles;
mod ranges;

pub use entry::{
    access, access_in, access_opened, rank, rank_in, rank_opened, select, select_in, select_opened,
};
pub use numbers::per_mille;
pub use quantiles::{
    quantile, quantile_in, quantile_opened, quantile_terms, quantile_terms_opened,
};
pub use ranges::range_of_terms;
