// Big-endian numbers in slices. Written, they are the library's `to_be_bytes` (proofs/BigEndianLaws). Two functions, and none over the width: each is one call of
// the library's method of its type.
ghost use Rattle.std.specs.Prelude.{◌≡◌, ◌+◌, ◌≤◌, length};
ghost use Rattle.octets.specs.Octets.{number, part};

// The number in the 2 bytes of s from index `at` on.
pub fn u16_at(s: &[u8], at: usize) -> u16
    requires { at + 2 ≤ length s.now }
    ensures { result ≡ number (part at 2 s.now) }
{
    u16::from_be_bytes([s[at], s[at + 1]])
}

// The number in the 4 bytes of s from index `at` on.
pub fn u32_at(s: &[u8], at: usize) -> u32
    requires { at + 4 ≤ length s.now }
    ensures { result ≡ number (part at 4 s.now) }
{
    u32::from_be_bytes([s[at], s[at + 1], s[at + 2], s[at + 3]])
}
