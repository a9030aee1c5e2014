// The term table of an opened archive.
ghost use Rattle.std.specs.Prelude.{◌≡◌, ◌≤◌};
ghost use Rattle.model.specs.Opening.{contents};
ghost use Rattle.model.specs.Queries.{term_start};

use archive::Archive;
use bit_rows::number;

// Where term t starts, in entries; n, where the last term ends, for t = W.
pub fn term_start(archive: &Archive<'_>, t: usize) -> usize
    requires { t ≤ archive.now.layout.terms }
    ensures { (result ≡ term_start (contents archive.now.bytes.now) t) × (result ≤ archive.now.layout.levels.entries) }
{
    if t == archive.layout.terms {
        return archive.layout.levels.entries;
    }
    number(archive.bytes, 40 + 8 * t)
}
