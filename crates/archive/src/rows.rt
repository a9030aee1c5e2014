// Rows of bits with their samples, as the check on opening finds them in the bytes.
ghost use Rattle.std.specs.Prelude.{◌≡◌, ◌<◌};
ghost use Rattle.bits.specs.Sequences.{all, below};
ghost use Rattle.wavelet.specs.Levels.{samples_in, row_in};
ghost use Rattle.archive.specs.Opening.{Placed, sampled_at, clear_at};

use bit_rows::{samples_right, unused_clear};
use wavelet::Levels;

// Levels that lie in the bytes. Whether their samples are right is not known.
#[derive(Clone, Copy)]
pub struct Rows<'a> {
    pub bytes: &'a [u8],
    pub levels: Levels,
    ghost placed: { Placed bytes.now levels },
}

impl<'a> Rows<'a> {
    // The samples of row j. `Tree` has the same of rows whose samples are known to be right; here that is yet to be looked at.
    fn samples(&self, j: usize) -> &'a [u8]
        requires { j < self.now.levels.height }
        ensures { result.now ≡ samples_in self.now.bytes.now self.now.levels j }
    {
        let w = 4 * ((self.levels.entries + 511) / 512);
        let at = self.levels.samples + j * w;
        &self.bytes[at..at + w]
    }

    // The bytes of row j.
    fn row(&self, j: usize) -> &'a [u8]
        requires { j < self.now.levels.height }
        ensures { result.now ≡ row_in self.now.bytes.now self.now.levels j }
    {
        let w = (self.levels.entries + 7) / 8;
        let at = self.levels.rows + j * w;
        &self.bytes[at..at + w]
    }

    // Whether the samples of row j are right.
    fn row_sampled(&self, j: usize) -> bool
        requires { j < self.now.levels.height }
        ensures { result ≡ sampled_at self.now.bytes.now self.now.levels j }
    {
        samples_right(self.samples(j), self.row(j), self.levels.entries)
    }

    // Whether the unused bits of row j are 0.
    fn row_clear(&self, j: usize) -> bool
        requires { j < self.now.levels.height }
        ensures { result ≡ clear_at self.now.bytes.now self.now.levels j }
    {
        unused_clear(self.row(j), self.levels.entries)
    }

    // Refusal 7: the samples of each row are right.
    pub fn samples_hold(&self) -> bool
        ensures { result ≡ all (sampled_at self.now.bytes.now self.now.levels) (below self.now.levels.height) }
    {
        (0..self.levels.height).all(|j| self.row_sampled(j))
    }

    // Refusal 8: the unused bits of each row are 0.
    pub fn unused_hold(&self) -> bool
        ensures { result ≡ all (clear_at self.now.bytes.now self.now.levels) (below self.now.levels.height) }
    {
        (0..self.levels.height).all(|j| self.row_clear(j))
    }
}
