// The terms of a question: as they are asked, and those that it comes to.
ghost use Rattle.std.specs.Prelude.{◌≡◌, ◌≤◌, take};

// So many of the numbers, as they are asked: one to eight, else the question is refused.
#[derive(Clone, Copy, Debug, PartialEq, Eq)]
pub struct Terms {
    pub numbers: [u32; 8],
    pub size: u32,
}

// So many of eight numbers. The library has no heap: a list that it makes lies in a buffer of fixed size, with its length beside it.
#[derive(Clone, Copy)]
pub struct TermList {
    pub numbers: [u32; 8],
    pub size: usize,
    pub ghost few: { size ≤ 8 },
}

impl TermList {
    pub fn as_slice(&self) -> &[u32]
        ensures { result.now ≡ take self.now.size self.now.numbers }
    {
        &self.numbers[..self.size]
    }
}
