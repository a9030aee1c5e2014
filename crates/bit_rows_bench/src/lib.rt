// What bench/bit_rows calls: operations of bit_rows under C names, with what those require and promise.
#![tactic(auto)]

ghost use Rattle.std.specs.Prelude.{◌≡◌, ◌++◌, ◌*◌, ◌≤◌, drop};
ghost use Rattle.bits.specs.Bits.{bits_of, sample_count, samples_of, samples_right};
ghost use Rattle.bits.specs.Rows.{Sized, Sampled};
ghost use Rattle.bits.specs.Sequences.{rank, select};

use bit_rows::Row;

// The row and its samples as one value.
fn row_of<'a>(samples: &'a [u8], bits: &'a [u8], n: usize) -> Row<'a>
    requires { Sampled n samples.now bits.now }
    ensures { (result.bits.now ≡ bits.now) × (result.n ≡ n) }
{
    Row { samples, bits, n }
}

#[unsafe(no_mangle)]
pub extern "C" fn bit_rows_bench_rank1(samples: &[u8], row: &[u8], n: usize, i: usize) -> usize
    requires sampled { Sampled n samples.now row.now }
    requires i_le_n { i ≤ n }
    ensures { result ≡ rank 1 (bits_of n row.now) i }
{
    bit_rows::rank1(row_of(samples, row, n), i)
}

#[unsafe(no_mangle)]
pub extern "C" fn bit_rows_bench_select1(samples: &[u8], row: &[u8], n: usize, j: usize) -> usize
    requires { Sampled n samples.now row.now }
    ensures { result ≡ select 1 (bits_of n row.now) j }
{
    bit_rows::select(row_of(samples, row, n), true, j)
}

#[unsafe(no_mangle)]
pub extern "C" fn bit_rows_bench_select0(samples: &[u8], row: &[u8], n: usize, j: usize) -> usize
    requires { Sampled n samples.now row.now }
    ensures { result ≡ select 0 (bits_of n row.now) j }
{
    bit_rows::select(row_of(samples, row, n), false, j)
}

#[unsafe(no_mangle)]
pub extern "C" fn bit_rows_bench_samples_right(samples: &[u8], row: &[u8], n: usize) -> bool
    requires { Sized n samples.now row.now }
    ensures { result ≡ samples_right n samples.now row.now }
{
    bit_rows::samples_right(samples, row, n)
}

#[unsafe(no_mangle)]
pub extern "C" fn bit_rows_bench_fill_samples(samples: &mut [u8], row: &[u8], n: usize)
    requires { Sized n samples.old row.now }
    ensures { samples.new ≡ samples_of (bits_of n row.now) ++ drop (4 * sample_count n) samples.old }
{
    bit_rows::fill_samples(samples, row, n);
}
