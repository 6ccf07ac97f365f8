//! The bits of a word.
ghost use Rattle.std.specs.Prelude.{◌%◌, ◌+◌, ◌/◌, ◌^◌, ◌≡◌, ◌≤◌};

/// Returns the `size` bits of a word from bit `low` on.
pub fn field(word: u64, low: u32, size: u32) -> u64
    requires { low + size ≤ 64 }
    ensures { result ≡ word / 2 ^ low % 2 ^ size }
{
    if size == 0 {
        return 0;
    }
    (word >> low) & (u64::MAX >> (64 - size))
}
