// Checks of a row that comes from elsewhere: its samples, in one pass, and its unused bits.
ghost use Rattle.std.specs.Prelude.{◌≡◌, ◌≤◌, length};
ghost use Rattle.bits.specs.Bits.{row_bytes, samples_right, unused_clear};
ghost use Rattle.bits.specs.Rows.{Sized};

use crate::blocks::block_ones;
use bits::number;

// Whether every sample of the row is right.
pub fn samples_right(samples: &[u8], row: &[u8], n: usize) -> bool
    requires { Sized n samples.now row.now }
    ensures { result ≡ samples_right n samples.now row.now }
{
    let m = (n + 511) / 512;
    let mut count: usize = 0;
    for t in 0..m {
        if number(samples, 4 * t) != count {
            return false;
        }
        count += block_ones(row, n, t);
    }
    true
}

// Whether the bits from place n on in the row's last byte are 0.
pub fn unused_clear(row: &[u8], n: usize) -> bool
    requires { row_bytes n ≤ length row.now }
    ensures { result ≡ unused_clear n row.now }
{
    let used = n % 8;
    if used == 0 {
        return true;
    }
    (row[n / 8] >> used) == 0
}
