// An opened archive: bytes that the check accepts, and their layout.
ghost use Rattle.std.specs.Prelude.{◌≡◌};
ghost use Rattle.archive.specs.Layout.{IsArchive, Opened};

use crate::Layout;
use crate::offsets::layout_of;
use bit_rows::number;
use wavelet::Tree;

// An archive as the questions take it.
#[derive(Clone, Copy)]
pub struct Archive<'a> {
    pub bytes: &'a [u8],
    pub layout: Layout,
    pub ghost opened: { Opened bytes.now layout },
}

impl<'a> Archive<'a> {
    // The tree of its entries.
    pub fn tree(&self) -> Tree<'a>
        ensures { (result.bytes.now ≡ self.now.bytes.now) × (result.levels ≡ self.now.layout.levels) }
    {
        Tree {
            bytes: self.bytes,
            levels: self.layout.levels,
        }
    }
}

// An archive that was opened before, by its header: the check is not made again.
pub fn reopen(bytes: &[u8]) -> Archive<'_>
    requires { IsArchive bytes.now }
    ensures { result.bytes.now ≡ bytes.now }
{
    let layout = layout_of(number(bytes, 4), number(bytes, 8), number(bytes, 12));
    Archive { bytes, layout }
}
