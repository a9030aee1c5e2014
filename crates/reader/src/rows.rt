// The entries of an archive, row by row for all of them at once.
ghost use Rattle.std.specs.Prelude.{◌≡◌, ◌+◌, ◌<◌, length};
ghost use Rattle.wavelet.specs.Levels.{entries_in};
ghost use Rattle.reader.specs.Reading.{Descent, Deepened, keys_at};

use bit_rows::bit;
use keys::starts;
use wavelet::Tree;

// Appends to each key its bit of the row, which stands at the next free place of the key.
fn deepen(row: &[u8], next: &mut [u32], keys: &mut [u32])
    requires { Descent row.now next.old keys.old }
    ensures { Deepened row.now keys.old keys.new }
{
    for key in keys.iter_mut() {
        let q = *key as usize;
        let p = next[q];
        next[q] = p + 1;
        *key = 2 * *key + u32::from(bit(row, p as usize));
    }
}

// From the keys of level j to those of the next one.
fn read_row(tree: &Tree<'_>, j: usize, keys: &mut [u32])
    requires { (j < tree.now.levels.height) × (keys.old ≡ keys_at tree.now.bytes.now tree.now.levels j) }
    ensures { keys.new ≡ keys_at tree.now.bytes.now tree.now.levels (j + 1) }
{
    let mut next = [0u32; 4096];
    starts(keys, 0, 1 << j, &mut next);
    deepen(tree.bits_at(j), &mut next, keys);
}

// The entries, into a slice of their number. All keys are 0 at first, that of the root.
pub fn read_entries(tree: &Tree<'_>, entries: &mut [u32])
    requires { length entries.old ≡ tree.now.levels.entries }
    ensures { entries.new ≡ entries_in tree.now.bytes.now tree.now.levels }
{
    entries.fill(0);
    for j in 0..tree.levels.height {
        read_row(tree, j, entries);
    }
}
