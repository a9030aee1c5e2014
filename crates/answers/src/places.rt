// A document's count with its first place in a lent slice: three numbers a document (document 02, M-108).
ghost use Rattle.std.specs.Prelude.{◌≡◌, [], ◌∷◌, ◌+◌, ◌*◌, ◌^◌, ◌≤◌, ◌<◌, length};
ghost use Rattle.std.proofs.lemmas.List.Edits.{sets};

// Document number `at` of the slice.
pub fn put_placed(answers: &mut [u32], at: usize, document: u32, count: u32, place: usize)
    requires { (3 * (at + 1) ≤ length answers.old) × (place < 2 ^ 32) }
    ensures { answers.new ≡ sets answers.old (3 * at) (document ∷ count ∷ place ∷ []) }
{
    let first = 3 * at;
    answers[first] = document;
    answers[first + 1] = count;
    answers[first + 2] = place as u32;
}
