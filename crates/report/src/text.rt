// Text into a slice from a place on, as far as the slice has room; each function answers the next place.
// A struct of the slice and the place is no plainer: each of its methods would also have to say that it still holds the same slice.
ghost use Rattle.std.specs.Prelude.{[], ◌∷◌, ◌≤◌, length};
ghost use Rattle.report.specs.Report.{decimal, line_of, last_line};
ghost use Rattle.report.specs.Types.{Types};

fn put_byte(output: &mut [u8], at: usize, byte: u8) -> usize
    requires { at ≤ length output.old }
    ensures { Types (byte ∷ []) at output.old result output.new }
{
    if at < output.len() {
        output[at] = byte;
        return at + 1;
    }
    at
}

fn put_text(output: &mut [u8], at: usize, text: &[u8]) -> usize
    requires { at ≤ length output.old }
    ensures { Types text.now at output.old result output.new }
{
    let mut place = at;
    for byte in text {
        place = put_byte(output, place, *byte);
    }
    place
}

fn put_decimal(output: &mut [u8], at: usize, x: u32) -> usize
    requires { at ≤ length output.old }
    ensures { Types (decimal x) at output.old result output.new }
{
    let mut digits = [0u8; 20];
    let n = io::decimal(u64::from(x), &mut digits);
    put_text(output, at, &digits[..n])
}

// A space and a number.
fn put_field(output: &mut [u8], at: usize, x: u32) -> usize
    requires { at ≤ length output.old }
    ensures { Types (32 ∷ decimal x) at output.old result output.new }
{
    let first = put_byte(output, at, b' ');
    put_decimal(output, first, x)
}

// A document, its count and its first place.
pub fn put_line(output: &mut [u8], at: usize, document: u32, count: u32, place: u32) -> usize
    requires { at ≤ length output.old }
    ensures { Types (line_of document count place) at output.old result output.new }
{
    let first = put_decimal(output, at, document);
    let second = put_field(output, first, count);
    let third = put_field(output, second, place);
    put_byte(output, third, b'\n')
}

// The last line: a word with its space, and a number.
pub fn put_last(output: &mut [u8], at: usize, word: &[u8], x: u32) -> usize
    requires { at ≤ length output.old }
    ensures { Types (last_line word.now x) at output.old result output.new }
{
    let first = put_text(output, at, word);
    let second = put_decimal(output, first, x);
    put_byte(output, second, b'\n')
}
