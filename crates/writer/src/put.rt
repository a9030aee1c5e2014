// Writing numbers and bytes into a part of the target.
ghost use Rattle.std.specs.Prelude.{◌≡◌, map, ◌+◌, ◌*◌, ◌^◌, ◌≤◌, ◌<◌, length};
ghost use Rattle.bits.specs.Bits.{concat, sum, little_endian};
ghost use Rattle.model.specs.Lists.{Within};
ghost use Rattle.model.specs.Format.{header, table_from};
ghost use Rattle.archive.specs.Layout.{sizes_in, Fitting};
ghost use Rattle.writer.specs.Writing.{overwrite_at};

use archive::Layout;
use bit_rows::put_number;

// Copies bytes to a place.
pub fn copy_bytes(source: &[u8], target: &mut [u8], at: usize)
    requires { at + length source.now ≤ length target.old }
    ensures { target.new ≡ overwrite_at at source.now target.old }
{
    target[at..at + source.len()].copy_from_slice(source);
}

// Writes numbers of 32 bits from the target's start on.
fn put_numbers(numbers: &[usize], target: &mut [u8])
    requires { (4 * length numbers.now ≤ length target.old) × (length numbers.now ≤ 65536) × Within (2 ^ 32) numbers.now }
    ensures { target.new ≡ overwrite_at 0 (concat (map little_endian numbers.now)) target.old }
{
    for (i, number) in numbers.iter().enumerate() {
        put_number(target, 4 * i, *number);
    }
}

// Writes the header: the edition, n, N, W, and the three pairs of offset and length.
pub fn put_header(l: Layout, target: &mut [u8])
    requires fitting { Fitting l }
    requires in_bounds { 40 ≤ length target.old }
    ensures { target.new ≡ overwrite_at 0 (concat (map little_endian (header (sizes_in l)))) target.old }
{
    let t = l.levels;
    let n = t.entries;
    let samples = t.rows - t.samples;
    let rows = t.height * ((n + 7) / 8);
    let numbers = [
        1,
        n,
        l.documents,
        l.terms,
        40,
        8 * l.terms,
        t.samples,
        samples,
        t.rows,
        rows,
    ];
    put_numbers(&numbers, target);
}

// Writes the term table, of pairs of offset and length, from offset 40 on.
pub fn put_table(lengths: &[u32], target: &mut [u8])
    requires { (40 + 8 * length lengths.now ≤ length target.old) × (length lengths.now ≤ 4096) × (sum lengths.now ≤ 65535) }
    ensures { target.new ≡ overwrite_at 40 (concat (map little_endian (table_from 0 lengths.now))) target.old }
{
    let mut start = 0;
    for (t, length) in lengths.iter().enumerate() {
        let length = *length as usize;
        put_number(target, 40 + 8 * t, start);
        put_number(target, 44 + 8 * t, length);
        start += length;
    }
}
