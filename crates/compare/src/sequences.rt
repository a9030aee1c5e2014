// Two small libraries, of which every short sequence of words and marks is asked as a question with and, or, not.
use crate::archives::write_small;
use crate::small::{each_choice, one_empty};
use trials::differences::Tally;
use trials::library::Library;
use trials::sequences::{ask_numbers, ask_sequences};

// Over three of its terms, and with one that it does not have for one of these.
fn ask(l: Library, made: &mut Tally) {
    let mut target = [0u8; 128];
    let written = write_small(l, &mut target, made);
    ask_sequences([0, 1, 2], written, made);
    ask_sequences([0, l.sizes.terms, 2], written, made);
    ask_numbers([0, 1, 2], written, made);
}

pub fn sequences(made: &mut Tally) {
    ask(one_empty(), made);
    ask(each_choice(), made);
}
