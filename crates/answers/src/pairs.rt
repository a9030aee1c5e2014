// Pairs of document and count in a lent slice.
ghost use Rattle.std.specs.Prelude.{◌≡◌, [], ◌∷◌, ◌+◌, ◌*◌, ◌^◌, ◌≤◌, ◌<◌, length};
ghost use Rattle.std.proofs.lemmas.List.Edits.{sets};

// Pair number `at` of the slice. `put_placed` is no other case of it: each promise names its numbers one by one.
pub fn put_pair(answers: &mut [u32], at: usize, document: usize, count: usize)
    requires { (2 * (at + 1) ≤ length answers.old) × (document < 2 ^ 32) × (count < 2 ^ 32) }
    ensures { answers.new ≡ sets answers.old (2 * at) (document ∷ count ∷ []) }
{
    let place = 2 * at;
    answers[place] = document as u32;
    answers[place + 1] = count as u32;
}
