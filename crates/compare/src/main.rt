// Many random libraries, every pattern of terms and every short sequence of words and marks in a few small ones, and every rate of a small size, through
// the code and beside a plain count over the list.
#![tactic(auto)]

mod answered;
mod archives;
mod library;
mod patterns;
mod sequences;
mod shapes;
mod small;

use library::ask_library;
use patterns::patterns;
use sequences::sequences;
use shapes::shape_of;
use trials::differences::Tally;
use trials::random::draw;
use trials::rates::ask_rates;

fn libraries(made: &mut Tally) {
    for i in 0..3105 {
        let seed = draw(2026, i);
        ask_library(shape_of(i, seed), seed, made);
    }
}

fn main(rt: HostRuntime) {
    let mut made = Tally::new(rt.stdout());
    libraries(&mut made);
    patterns(&mut made);
    sequences(&mut made);
    ask_rates(&mut made);
    made.totals();
}
