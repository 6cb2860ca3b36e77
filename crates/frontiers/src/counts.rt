// Counts in bytes, for counts of two or four bytes.

ghost use Rattle.std.specs.Prelude.{ℕ, ◌+◌, ◌*◌, ◌^◌, ◌≤◌, ◌<◌, ◌≡◌, length};
ghost use Rattle.std.proofs.lemmas.List.Edits.{sets};
ghost use Rattle.codec.specs.Little.{number, put};
ghost use Rattle.clocks.specs.Counts.{at, list_of};
ghost use Rattle.frontiers.specs.Bytes.{count_bytes};

use crate::width::CountWidth;
use std::array;

// The count at a place.
#[inline(always)]
pub fn read_count(s: &[u8], place: usize, w: CountWidth) -> u32
    requires w_in_bounds { place + w ≤ length s.now }
    ensures { result ≡ number s.now place w }
{
    if w.bytes() == 2 {
        u32::from(codec::read_u16(s, place))
    } else {
        codec::read_u32(s, place)
    }
}

// Stores a count at a place.
#[inline(always)]
pub fn write_count(s: &mut [u8], place: usize, w: CountWidth, c: u32)
    requires w_in_bounds { place + w ≤ length s.old }
    requires c_bound { c < 256 ^ w }
    ensures { s.new ≡ put s.old place w c }
{
    if w.bytes() == 2 {
        codec::write_u16(s, place, c as u16);
    } else {
        codec::write_u32(s, place, c);
    }
}

// The eight counts from a place on.
#[inline(always)]
pub fn read_counts(s: &[u8], place: usize, w: CountWidth) -> [u32; 8]
    requires w_in_bounds { place + 8 * w ≤ length s.now }
    ensures { result ≡ list_of 8 (λ p. number s.now (place + p * w) w) }
{
    array::from_fn(|p| read_count(s, place + p * w.bytes(), w))
}

// Stores eight counts at the start.
#[inline(always)]
pub fn write_counts(s: &mut [u8], w: CountWidth, counts: [u32; 8])
    requires w_in_bounds { 8 * w ≤ length s.old }
    requires by_index { (p : ℕ) → at counts p < 256 ^ w }
    ensures { s.new ≡ sets s.old 0 (count_bytes w counts) }
{
    let mut next = 0;
    for count in counts {
        write_count(s, next, w, count);
        next += w.bytes();
    }
}
