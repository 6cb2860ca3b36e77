// Numbers in byte slices, low byte first, and the bits of masks.

#![tactic(auto)]

ghost use Rattle.std.specs.Prelude.{◌+◌, ◌≤◌, ◌<◌, ◌≡◌, length, take, drop};
ghost use Rattle.std.specs.Int.Count.{count_trailing_zeros};
ghost use Rattle.codec.specs.Little.{number, put};
ghost use Rattle.codec.specs.Bit.{bit};

// The N bytes at a place.
pub fn bytes_at<const N: usize>(s: &[u8], at: usize) -> [u8; N]
    requires { at + N ≤ length s.now }
    ensures { result ≡ take N (drop at s.now) }
{
    s[at..at + N].try_into().unwrap()
}

// By hand, as no plainer: three readers and three writers, each a line over its type's own bytes. A trait over the three
// types, with the two functions and their laws, would be longer than the lines that it saves.

// The number of two bytes at a place.
pub fn read_u16(s: &[u8], at: usize) -> u16
    requires { at + 2 ≤ length s.now }
    ensures { result ≡ number s.now at 2 }
{
    u16::from_le_bytes(bytes_at(s, at))
}

// The number of four bytes at a place.
pub fn read_u32(s: &[u8], at: usize) -> u32
    requires { at + 4 ≤ length s.now }
    ensures { result ≡ number s.now at 4 }
{
    u32::from_le_bytes(bytes_at(s, at))
}

// The number of eight bytes at a place.
pub fn read_u64(s: &[u8], at: usize) -> u64
    requires { at + 8 ≤ length s.now }
    ensures { result ≡ number s.now at 8 }
{
    u64::from_le_bytes(bytes_at(s, at))
}

// Stores a number in two bytes at a place.
pub fn write_u16(s: &mut [u8], at: usize, v: u16)
    requires { at + 2 ≤ length s.old }
    ensures { s.new ≡ put s.old at 2 v }
{
    s[at..at + 2].copy_from_slice(&v.to_le_bytes());
}

// Stores a number in four bytes at a place.
pub fn write_u32(s: &mut [u8], at: usize, v: u32)
    requires { at + 4 ≤ length s.old }
    ensures { s.new ≡ put s.old at 4 v }
{
    s[at..at + 4].copy_from_slice(&v.to_le_bytes());
}

// Stores a number in eight bytes at a place.
pub fn write_u64(s: &mut [u8], at: usize, v: u64)
    requires { at + 8 ≤ length s.old }
    ensures { s.new ≡ put s.old at 8 v }
{
    s[at..at + 8].copy_from_slice(&v.to_le_bytes());
}

// Whether a bit of a mask is set.
pub fn has_bit(mask: u64, p: u32) -> bool
    requires { p < 64 }
    ensures { result ≡ bit mask p }
{
    (mask >> p) % 2 == 1
}

// The place of the lowest set bit, and 8 where none is set.
// By hand, as promised: docs/PROOF-MAP.md names it, and the edit highest_for_lowest is of it.
pub fn lowest_bit(mask: u8) -> u32
    ensures { (result ≡ count_trailing_zeros 8 mask) × (result ≤ 8) }
{
    mask.trailing_zeros()
}
