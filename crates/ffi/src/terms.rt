// The terms of a question, from a slice that another language lends.
ghost use Rattle.ffi.specs.Chosen.{Chosen};

use paths::Terms;

// The chosen terms as the question holds them. Nine stand for more than eight, which are refused.
pub fn terms_of(chosen: &[u32]) -> Terms
    ensures { Chosen chosen.now result }
{
    let mut numbers = [0u32; 8];
    let size = chosen.len();
    if 8 < size {
        return Terms { numbers, size: 9 };
    }
    numbers[..size].copy_from_slice(chosen);
    Terms {
        numbers,
        size: size as u32,
    }
}
