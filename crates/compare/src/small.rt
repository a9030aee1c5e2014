// Small libraries, before they are written.
use plain::outcome::Sizes;
use trials::library::Library;

// Term 1 has no entries, and term 2 is found in every document.
pub fn one_empty() -> Library<'static> {
    Library {
        archive: &[],
        entries: &[3, 1, 0, 3, 2, 1, 3, 0],
        lengths: &[3, 0, 5],
        sizes: Sizes {
            n: 8,
            documents: 4,
            terms: 3,
        },
    }
}

// Terms 1, 3 and 4 are found in 2, 5 and 3 documents and weigh 8, 2 and 5. Documents 2 and 5 are under all of them, document 6 under two.
pub fn overlapping() -> Library<'static> {
    Library {
        archive: &[],
        entries: &[0, 7, 2, 5, 2, 2, 5, 1, 5, 2, 6, 5, 0, 5, 2, 6, 2],
        lengths: &[2, 4, 1, 6, 4],
        sizes: Sizes {
            n: 17,
            documents: 8,
            terms: 5,
        },
    }
}

// Terms 0, 2 and 3 are found in the same three documents of five, and weigh the same.
pub fn alike() -> Library<'static> {
    Library {
        archive: &[],
        entries: &[4, 0, 3, 1, 0, 3, 4, 4, 3, 0, 0, 4, 3],
        lengths: &[3, 1, 4, 5],
        sizes: Sizes {
            n: 13,
            documents: 5,
            terms: 4,
        },
    }
}

// Documents 0 to 7 are under each choice of terms 0, 1 and 2, so an answer tells what a question means. Of 16 numbers of the tree 9 are documents.
pub fn each_choice() -> Library<'static> {
    Library {
        archive: &[],
        entries: &[1, 3, 5, 7, 2, 3, 6, 7, 4, 5, 6, 7, 8, 0],
        lengths: &[4, 4, 4, 2],
        sizes: Sizes {
            n: 14,
            documents: 9,
            terms: 4,
        },
    }
}
