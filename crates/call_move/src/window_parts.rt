// The window moved, frontier by frontier.

ghost use Rattle.std.specs.Prelude.{◌+◌, ◌*◌, ◌≤◌, ◌≡◌, false, length, drop};
ghost use Rattle.std.proofs.lemmas.List.Edits.{sets};
ghost use Rattle.frontiers.specs.Bytes.{frontier_length};
ghost use Rattle.call_move.specs.Parts.{frontier_parts, window_parts};
ghost use Rattle.call_move.specs.Move.{moved, some_too_large};

use crate::bytes::copy_eights;
use crate::counts::{any_too_large, move_counts};
use frontiers::place::frontier_place;
use frontiers::width::CountWidth;

// 43, of the window's first n places, used or not: the counts of each.
#[inline(always)]
pub fn window_too_large(window: &[u8], n: usize, v: CountWidth, w: CountWidth) -> bool
    requires n_bound { n ≤ 1024 }
    requires v_in_bounds { n * frontier_length v ≤ length window.now }
    ensures { result ≡ some_too_large v w (window_parts n) window.now }
{
    let mut some = false;
    for i in 0..n {
        some |= any_too_large(window, frontier_place(v, i), v, 1, w);
    }
    some
}

// Writes the frontier from a place on to a place of the other window.
#[inline(always)]
fn move_frontier(
    window: &[u8],
    from: usize,
    v: CountWidth,
    target: &mut [u8],
    to: usize,
    w: CountWidth,
)
    requires v_in_bounds { from + frontier_length v ≤ length window.now }
    requires w_in_bounds { to + frontier_length w ≤ length target.old }
    requires window_value { some_too_large v w frontier_parts (drop from window.now) ≡ false }
    ensures { target.new
        ≡ sets target.old to (moved v w frontier_parts (drop from window.now)) }
{
    move_counts(window, from, v, 1, target, to, w);
    copy_eights(window, from + 8 * v.bytes(), 3, target, to + 8 * w.bytes());
}

// Writes a window's first n frontiers with counts of v bytes as such with counts of w bytes.
#[inline(always)]
pub fn move_window(window: &[u8], n: usize, v: CountWidth, target: &mut [u8], w: CountWidth)
    requires n_bound { n ≤ 1024 }
    requires v_in_bounds { n * frontier_length v ≤ length window.now }
    requires w_in_bounds { n * frontier_length w ≤ length target.old }
    requires window_value { some_too_large v w (window_parts n) window.now ≡ false }
    ensures { target.new
        ≡ sets target.old 0 (moved v w (window_parts n) window.now) }
{
    for i in 0..n {
        move_frontier(
            window,
            frontier_place(v, i),
            v,
            target,
            frontier_place(w, i),
            w,
        );
    }
}
