// Counts of one width written with another, and whether they have a place there.

ghost use Rattle.std.specs.Prelude.{◌+◌, ◌*◌, ◌≤◌, ◌≡◌, false, length, drop};
ghost use Rattle.std.proofs.lemmas.List.Edits.{sets};
ghost use Rattle.clocks.specs.Bounded.{any_below};
ghost use Rattle.clocks.specs.Counts.{at};
ghost use Rattle.frontiers.specs.Bytes.{count_bytes};
ghost use Rattle.call_move.specs.Move.{counts_from, too_large};
ghost use Rattle.call_move.specs.MoveCode.{any_too_large};

use frontiers::counts::{read_counts, write_counts};
use frontiers::width::CountWidth;

// A count is too large for w bytes.
#[inline(always)]
fn too_large(c: u32, w: CountWidth) -> bool
    ensures { result ≡ too_large w c }
{
    w.bytes() == 2 && 65535 < c
}

// One of eight counts is too large for w bytes. All are looked at, without a branch.
#[inline(always)]
fn one_too_large(counts: [u32; 8], w: CountWidth) -> bool
    ensures { result ≡ any_below 8 (λ i. too_large w (at counts i)) }
{
    let mut some = false;
    for count in &counts {
        some |= too_large(*count, w);
    }
    some
}

// One of the n times eight counts of v bytes from a place on is too large for w bytes.
#[inline(always)]
pub fn any_too_large(s: &[u8], place: usize, v: CountWidth, n: usize, w: CountWidth) -> bool
    requires v_in_bounds { place + n * (8 * v) ≤ length s.now }
    ensures { result ≡ any_too_large v w (8 * n) (drop place s.now) }
{
    let mut some = false;
    for i in 0..n {
        some |= one_too_large(read_counts(s, place + i * (8 * v.bytes()), v), w);
    }
    some
}

// Writes the eight counts of v bytes from a place on with w bytes to a place of another slice. All are read before they
// are written: so the compiler need not ask whether the slices overlap.
#[inline(always)]
fn move_eight(s: &[u8], from: usize, v: CountWidth, target: &mut [u8], to: usize, w: CountWidth)
    requires v_in_bounds { from + 8 * v ≤ length s.now }
    requires w_in_bounds { to + 8 * w ≤ length target.old }
    requires s_value { any_too_large v w 8 (drop from s.now) ≡ false }
    ensures { target.new
        ≡ sets target.old to (count_bytes w (counts_from v 8 (drop from s.now))) }
{
    let counts = read_counts(s, from, v);
    write_counts(&mut target[to..], w, counts);
}

// Writes the n times eight counts of v bytes from a place on with w bytes to a place of another slice.
#[inline(always)]
pub fn move_counts(
    s: &[u8],
    from: usize,
    v: CountWidth,
    n: usize,
    target: &mut [u8],
    to: usize,
    w: CountWidth,
)
    requires v_in_bounds { from + n * (8 * v) ≤ length s.now }
    requires w_in_bounds { to + n * (8 * w) ≤ length target.old }
    requires s_value { any_too_large v w (8 * n) (drop from s.now) ≡ false }
    ensures { target.new
        ≡ sets target.old to (count_bytes w (counts_from v (8 * n) (drop from s.now))) }
{
    for i in 0..n {
        move_eight(
            s,
            from + i * (8 * v.bytes()),
            v,
            target,
            to + i * (8 * w.bytes()),
            w,
        );
    }
}
