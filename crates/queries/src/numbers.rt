// Questions of numbers alone.
ghost use Rattle.std.specs.Prelude.{◌*◌, ◌≤◌, ◌<◌, ◌≡◌};
ghost use Rattle.model.specs.Rate.{IsRounded};
ghost use Rattle.model.specs.Queries.{per_mille_result};
ghost use Rattle.answers.specs.Answers.{number_of};

use refusals::Refusal;

// a / b to the nearest whole number, an exact half to the even one: the quotient, or the number after it where the rest is more than half of b, or is half of
// it and the quotient odd.
fn round_half_even(a: u64, b: u64) -> u64
    requires { (0 < b) × (b ≤ 4294967295) × (a ≤ 1000 * b) }
    ensures { IsRounded a b result }
{
    let whole = a / b;
    if b < 2 * (a % b) + whole % 2 {
        return whole + 1;
    }
    whole
}

// The rate: count × 1,000 / size of a range, rounded half to even (document 02, M-105).
pub fn per_mille(count: u32, size: u32) -> Result<u32, Refusal>
    ensures { number_of result ≡ per_mille_result count size }
{
    if size == 0 {
        return Err(Refusal::Argument);
    }
    if size < count {
        return Err(Refusal::Argument);
    }
    Ok(round_half_even((count as u64) * 1000, size as u64) as u32)
}
