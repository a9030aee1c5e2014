// Writing a row: its bits one by one into zeros, then its samples.
ghost use Rattle.std.specs.Prelude.{◌≡◌, ◌++◌, ◌*◌, ◌<◌, length, drop};
ghost use Rattle.bits.specs.Bits.{bit_at, bits_of, sample_count, samples_of};
ghost use Rattle.bits.specs.Rows.{with_bit, Sized};

use crate::blocks::block_ones;
use bits::put_number;

// Stores bit b at place i, where a 0 stands; all other bits stay.
pub fn put_bit(row: &mut [u8], i: usize, b: u8)
    requires { (i < 8 * length row.old) × (bit_at row.old i ≡ 0) × (b < 2) }
    ensures { row.new ≡ with_bit row.old i b }
{
    let k = i / 8;
    let old = row[k];
    row[k] = old + (b << (i % 8));
}

// Writes the samples of the row; what lies behind them stays.
pub fn fill_samples(samples: &mut [u8], row: &[u8], n: usize)
    requires { Sized n samples.old row.now }
    ensures { samples.new ≡ samples_of (bits_of n row.now) ++ drop (4 * sample_count n) samples.old }
{
    let m = (n + 511) / 512;
    let mut count: usize = 0;
    for t in 0..m {
        put_number(samples, 4 * t, count);
        count += block_ones(row, n, t);
    }
}
