// Small libraries, each with three of its terms: every pattern of one to eight of these is asked.
use crate::archives::write_small;
use crate::small::{alike, one_empty, overlapping};
use trials::differences::Tally;
use trials::library::Library;
use trials::patterns::ask_patterns;

fn ask(three: [u32; 3], l: Library, made: &mut Tally) {
    let mut target = [0u8; 128];
    let written = write_small(l, &mut target, made);
    ask_patterns(three, written, made);
}

// The second library is asked with term 5 too, which it does not have, for term 4: refused wherever it stands.
pub fn patterns(made: &mut Tally) {
    ask([0, 1, 2], one_empty(), made);
    ask([4, 1, 3], overlapping(), made);
    ask([1, 5, 3], overlapping(), made);
    ask([3, 0, 2], alike(), made);
}
