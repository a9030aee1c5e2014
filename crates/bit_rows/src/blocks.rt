// The ones of a block of 512 bits, by words.
ghost use Rattle.std.specs.Prelude.{◌≡◌, ◌+◌, ◌*◌, ◌^◌, ◌≤◌, ◌<◌, length};
ghost use Rattle.bits.specs.Bits.{row_bytes};
ghost use Rattle.bits.specs.Rows.{count_below};

use bits::ones_in;

// The ones of block t, of 512 bits; 0 where the row ends within it.
pub fn block_ones(row: &[u8], n: usize, t: usize) -> usize
    requires { (n < 2 ^ 32) × (row_bytes n ≤ length row.now) × (512 * t < n) }
    ensures { (512 * (t + 1) ≤ n → count_below 1 row.now (512 * (t + 1)) ≡ count_below 1 row.now (512 * t) + result) × (result ≤ 512) }
{
    if 512 * t + 512 <= n {
        ones_in(row, 64 * t, 64 * t + 64)
    } else {
        0
    }
}
