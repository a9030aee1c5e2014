// Numbers in bytes, low byte first: of 32 bits, as samples are kept, and words of 64 bits to count by.
ghost use Rattle.std.specs.Prelude.{◌≡◌, ◌+◌, ◌^◌, ◌≤◌, ◌<◌, length};
ghost use Rattle.bits.specs.Bits.{number_at};
ghost use Rattle.bits.specs.Rows.{word_at, with_number};

// The number of 32 bits at byte k.
pub fn number(bytes: &[u8], k: usize) -> usize
    requires { k + 4 ≤ length bytes.now }
    ensures { (result ≡ number_at bytes.now k) × (result < 2 ^ 32) }
{
    u32::from_le_bytes([bytes[k], bytes[k + 1], bytes[k + 2], bytes[k + 3]]) as usize
}

// The eight bytes from byte k on.
pub fn word(bytes: &[u8], k: usize) -> u64
    requires { k + 8 ≤ length bytes.now }
    ensures { result ≡ word_at bytes.now k }
{
    u64::from_le_bytes([
        bytes[k],
        bytes[k + 1],
        bytes[k + 2],
        bytes[k + 3],
        bytes[k + 4],
        bytes[k + 5],
        bytes[k + 6],
        bytes[k + 7],
    ])
}

// Stores x at byte k; all other bytes stay.
pub fn put_number(bytes: &mut [u8], k: usize, x: usize)
    requires { (k + 4 ≤ length bytes.old) × (x < 2 ^ 32) }
    ensures { bytes.new ≡ with_number bytes.old k x }
{
    bytes[k..k + 4].copy_from_slice(&(x as u32).to_le_bytes());
}
