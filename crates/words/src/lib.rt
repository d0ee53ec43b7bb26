// Bytes and words in lent slices. Every function here is a leaf: its callers have tested the lengths.
#![tactic(auto)]

ghost use Rattle.std.specs.Prelude.{◌≡◌, ◌+◌, ◌≤◌, length, replicate};
ghost use Rattle.words.specs.Parts.{splice};
ghost use Rattle.words.specs.Words.{le32, be32, le_bytes, be_bytes};

// The little-endian word at `at`.
pub fn read_le32(s: &[u8], at: usize) -> u32
    requires { at + 4 ≤ length s.now }
    ensures { result ≡ le32 at s.now }
{
    u32::from_le_bytes([s[at], s[at + 1], s[at + 2], s[at + 3]])
}

// The big-endian word at `at`.
pub fn read_be32(s: &[u8], at: usize) -> u32
    requires { at + 4 ≤ length s.now }
    ensures { result ≡ be32 at s.now }
{
    u32::from_be_bytes([s[at], s[at + 1], s[at + 2], s[at + 3]])
}

// Writes a little-endian word at `at`.
pub fn write_le32(s: &mut [u8], at: usize, v: u32)
    requires { at + 4 ≤ length s.old }
    ensures { s.new ≡ splice at (le_bytes 4 v) s.old }
{
    s[at..at + 4].copy_from_slice(&v.to_le_bytes());
}

// Writes a big-endian word at `at`.
pub fn write_be32(s: &mut [u8], at: usize, v: u32)
    requires { at + 4 ≤ length s.old }
    ensures { s.new ≡ splice at (be_bytes 4 v) s.old }
{
    s[at..at + 4].copy_from_slice(&v.to_be_bytes());
}

// Copies all of `from` to `at` of `to`.
pub fn copy_to(from: &[u8], to: &mut [u8], at: usize)
    requires { at + length from.now ≤ length to.old }
    ensures { to.new ≡ splice at from.now to.old }
{
    to[at..at + from.len()].copy_from_slice(from);
}

// Fills the `n` bytes from `at` with `v`.
pub fn fill(s: &mut [u8], at: usize, n: usize, v: u8)
    requires { at + n ≤ length s.old }
    ensures { s.new ≡ splice at (replicate n v) s.old }
{
    s[at..at + n].fill(v);
}
