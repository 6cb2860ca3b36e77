// Frontiers in bytes: read at a place, written at the start of the bytes that are lent.

ghost use Rattle.std.specs.Prelude.{ℕ, ◌+◌, ◌*◌, ◌^◌, ◌≤◌, ◌<◌, ◌≡◌, length, take, drop};
ghost use Rattle.std.proofs.lemmas.List.Edits.{sets};
ghost use Rattle.clocks.specs.Counts.{at};
ghost use Rattle.frontiers.specs.Width.{Width};
ghost use Rattle.frontiers.specs.Bytes.{frontier_length, frontier_bytes, frontier_from, frontier_at};

use crate::Frontier;
use crate::width::CountWidth;

// Eight bytes from a place on.
pub fn read_eight(s: &[u8], place: usize) -> [u8; 8]
    requires { place + 8 ≤ length s.now }
    ensures { result ≡ take 8 (drop place s.now) }
{
    s[place..place + 8].try_into().unwrap()
}

// Stores eight bytes at a place.
pub fn write_eight(s: &mut [u8], place: usize, bytes: [u8; 8])
    requires { place + 8 ≤ length s.old }
    ensures { s.new ≡ sets s.old place bytes }
{
    s[place..place + 8].copy_from_slice(&bytes);
}

// The values of the frontier whose bytes begin at a place.
#[inline(always)]
pub fn read_values(s: &[u8], place: usize, w: CountWidth) -> u64
    requires w_in_bounds { place + frontier_length w ≤ length s.now }
    ensures { result ≡ (frontier_from w s.now place).values }
{
    codec::read_u64(s, place + 8 * w.bytes() + 16)
}

// The counts of frontier number i.
#[inline(always)]
pub fn counts_at(s: &[u8], w: CountWidth, i: usize) -> [u32; 8]
    requires i_bound { i ≤ 1024 }
    requires w_in_bounds { i * frontier_length w + frontier_length w ≤ length s.now }
    ensures { result ≡ (frontier_at w s.now i).counts }
{
    let place = crate::place::frontier_place(w, i);
    crate::counts::read_counts(s, place, w)
}

// The values of frontier number i.
#[inline(always)]
pub fn values_at(s: &[u8], w: CountWidth, i: usize) -> u64
    requires i_bound { i ≤ 1024 }
    requires w_in_bounds { i * frontier_length w + frontier_length w ≤ length s.now }
    ensures { result ≡ (frontier_at w s.now i).values }
{
    let place = crate::place::frontier_place(w, i);
    read_values(s, place, w)
}

// The frontier whose bytes begin at a place.
#[inline(always)]
pub fn read_frontier(s: &[u8], place: usize, w: CountWidth) -> Frontier
    requires w_in_bounds { place + frontier_length w ≤ length s.now }
    ensures { result ≡ frontier_from w s.now place }
{
    Frontier {
        counts: crate::counts::read_counts(s, place, w),
        labels: read_eight(s, place + 8 * w.bytes()),
        masks: read_eight(s, place + 8 * w.bytes() + 8),
        values: read_values(s, place, w),
    }
}

// Frontier number i.
#[inline(always)]
pub fn frontier_at(s: &[u8], w: CountWidth, i: usize) -> Frontier
    requires i_bound { i ≤ 1024 }
    requires w_in_bounds { i * frontier_length w + frontier_length w ≤ length s.now }
    ensures { result ≡ frontier_at w s.now i }
{
    let place = crate::place::frontier_place(w, i);
    read_frontier(s, place, w)
}

// Stores a frontier's bytes at the start of what is lent.
#[inline(always)]
pub fn write_frontier(s: &mut [u8], w: CountWidth, f: Frontier)
    requires w_in_bounds { frontier_length w ≤ length s.old }
    requires by_index { (p : ℕ) → at f.counts p < 256 ^ w }
    ensures { s.new ≡ sets s.old 0 (frontier_bytes w f) }
{
    crate::counts::write_counts(s, w, f.counts);
    write_eight(s, 8 * w.bytes(), f.labels);
    write_eight(s, 8 * w.bytes() + 8, f.masks);
    codec::write_u64(s, 8 * w.bytes() + 16, f.values);
}

// Lays a frontier down as number i: the tail from there on is lent to the frontier writer.
// By hand, as promised: docs/PROOF-MAP.md names this function, so it asks for a number as before.
pub fn lay_frontier(scratch: &mut [u8], w: usize, i: usize, f: Frontier)
    requires width { Width w }
    requires i_bound { i ≤ 1024 }
    requires w_in_bounds { i * frontier_length w + frontier_length w ≤ length scratch.old }
    requires by_index { (p : ℕ) → at f.counts p < 256 ^ w }
    ensures { scratch.new ≡ sets scratch.old (i * frontier_length w) (frontier_bytes w f) }
{
    let width = CountWidth::of(w);
    let place = crate::place::frontier_place(width, i);
    write_frontier(&mut scratch[place..], width, f);
}
