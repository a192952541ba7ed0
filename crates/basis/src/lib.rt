// Numbers in slices of bytes, low byte first.
#![tactic(auto)]

ghost use Rattle.std.specs.Prelude.{◌≡◌, ◌+◌, ◌<◌, ◌≤◌, length};
ghost use Rattle.basis.specs.Bytes.{word16_at, word32_at, bytes32};
ghost use Rattle.std.proofs.lemmas.List.Edits.{sets};

// The number of two bytes at an offset.
pub fn word16(s: &[u8], at: usize) -> u32
    requires { at + 2 ≤ length s.now }
    ensures { (result ≡ word16_at s.now at) × (result < 65536) }
{
    u32::from(u16::from_le_bytes([s[at], s[at + 1]]))
}

// The number of four bytes at an offset.
pub fn word32(s: &[u8], at: usize) -> u32
    requires { at + 4 ≤ length s.now }
    ensures { result ≡ word32_at s.now at }
{
    u32::from_le_bytes([s[at], s[at + 1], s[at + 2], s[at + 3]])
}

// Four bytes are written at an offset, low byte first.
pub fn put_word32(s: &mut [u8], at: usize, value: u32)
    requires { at + 4 ≤ length s.old }
    ensures { s.new ≡ sets s.old at (bytes32 value) }
{
    let bytes = value.to_le_bytes();
    s[at..at + 4].copy_from_slice(&bytes);
}
