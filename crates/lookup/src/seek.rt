// The look-up of counts among frontiers in ascending order, read straight from their bytes. What takes `Frontiers` is
// compiled into its caller, where the width of a count is a constant: read from the struct, a look-up takes up to twice
// as long.

ghost use Rattle.std.specs.Prelude.{◌+◌, ◌*◌, ◌≤◌, ◌<◌, ◌≡◌, length, unwrap_or, IfSome};
ghost use Rattle.frontiers.specs.Width.{Width};
ghost use Rattle.frontiers.specs.Bytes.{frontier_length, frontier_at};
ghost use Rattle.lookup.specs.Seek.{standing, stands_to, bisect as bisected, gallop as galloped, seek as sought, keys_of};

use frontiers::listed::Frontiers;
use frontiers::width::CountWidth;
use std::cmp::Ordering;

// How the counts of frontier i of a window's bytes stand to the key.
// By hand, as promised: it asks for bytes and a number, since it answers for frontier number 1,024 too.
pub fn standing_at(s: &[u8], w: usize, i: usize, key: [u32; 8]) -> Ordering
    requires width { Width w }
    requires i_bound { i ≤ 1024 }
    requires w_in_bounds { i * frontier_length w + frontier_length w ≤ length s.now }
    ensures { result ≡ standing (frontier_at w s.now i).counts key }
{
    let width = CountWidth::of(w);
    let place = frontiers::place::frontier_place(width, i);
    stands_at(&Frontiers::of(&s[place..], width, 1), 0, key)
}

// The same of frontiers that are laid: process by process, until one differs.
#[inline(always)]
fn stands_at(laid: &Frontiers, i: usize, key: [u32; 8]) -> Ordering
    requires { i < length laid.now }
    ensures { result ≡ stands_to (keys_of laid.now) key i }
{
    for p in 0..8 {
        let count = laid.count_at(i, p);
        if count != key[p] {
            return count.cmp(&key[p]);
        }
    }
    Ordering::Equal
}

// The place from low on and below high at which the key stands, by halving.
#[inline(always)]
pub fn bisect(laid: &Frontiers, key: [u32; 8], low: usize, high: usize) -> Option<usize>
    requires { high ≤ length laid.now }
    ensures place { unwrap_or result (length laid.now)
        ≡ bisected (keys_of laid.now) key (length laid.now) low high }
    ensures within { IfSome result (λ i. i < length laid.now) }
{
    let mut lo = low;
    let mut hi = high;
    while lo < hi {
        let middle = lo + (hi - lo) / 2;
        match stands_at(laid, middle, key) {
            Ordering::Equal => {
                return Some(middle);
            }
            Ordering::Less => {
                lo = middle + 1;
            }
            Ordering::Greater => {
                hi = middle;
            }
        }
    }
    None
}

// The same after a place whose counts stand before the key, by steps that double.
#[inline(always)]
pub fn gallop(laid: &Frontiers, key: [u32; 8], low: usize) -> Option<usize>
    requires { low < length laid.now }
    ensures place { unwrap_or result (length laid.now)
        ≡ galloped (keys_of laid.now) key (length laid.now) low 1 }
    ensures within { IfSome result (λ i. i < length laid.now) }
{
    let n = laid.len();
    let mut lo = low;
    let mut width = 1;
    loop {
        let far = lo + width;
        if n <= far {
            return bisect(laid, key, lo + 1, n);
        }
        match stands_at(laid, far, key) {
            Ordering::Equal => {
                return Some(far);
            }
            Ordering::Greater => {
                return bisect(laid, key, lo + 1, far);
            }
            Ordering::Less => {
                lo = far;
                width = width * 2;
            }
        }
    }
}

// The place at which the key stands among the frontiers, from a hint.
#[inline(always)]
pub fn seek(laid: &Frontiers, key: [u32; 8], hint: usize) -> Option<usize>
    ensures place { unwrap_or result (length laid.now) ≡ sought (keys_of laid.now) key hint }
    ensures within { IfSome result (λ i. i < length laid.now) }
{
    let n = laid.len();
    if n <= hint {
        return bisect(laid, key, 0, n);
    }
    match stands_at(laid, hint, key) {
        Ordering::Equal => Some(hint),
        Ordering::Less => gallop(laid, key, hint),
        Ordering::Greater => bisect(laid, key, 0, hint),
    }
}
