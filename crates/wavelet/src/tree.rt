// A tree in a byte slice: its levels lie there, and their samples are right. Its methods stand by topic: `level`, `halving`, `descent` and `range`.
ghost use Rattle.wavelet.specs.Levels.{Stored};

use crate::Levels;

// A tree as the questions take it.
#[derive(Clone, Copy)]
pub struct Tree<'a> {
    pub bytes: &'a [u8],
    pub levels: Levels,
    pub ghost stored: { Stored bytes.now levels },
}
