// The merge of the frontiers that stay and the new ones, in one pass over the window.

ghost use Rattle.std.specs.Prelude.{ℕ, ◌+◌, ◌*◌, ◌≤◌, ◌<◌, ◌≡◌, Bool, true, List, length};
ghost use Rattle.codec.specs.Bit.{bit};
ghost use Rattle.frontiers.specs.declared.Frontier.{Frontier};
ghost use Rattle.frontiers.specs.Bytes.{frontier_at, frontiers};
ghost use Rattle.window.specs.Step.{kept_after};
ghost use Rattle.window.specs.Room.{RoomFor};
ghost use Rattle.window_step.specs.Fixed.{setting_of, frontiers_of, stepped_of};
ghost use Rattle.window_step.specs.Laying.{takes, rest_of, fresh_at};
ghost use Rattle.window.specs.Marks.{Marked, Tells};

use crate::Stepping;
use clocks::Event;
use frontiers::width::CountWidth;

// The bits of a mark: the frontier stays; the event leads on from it.
const STAYS: u32 = 0;

const LEADS: u32 = 1;

// Whether a mark has bit p.
fn is_marked(mark: u8, p: u32) -> bool
    requires { p < 64 }
    ensures { result ≡ bit mark p }
{
    codec::has_bit(u64::from(mark), p)
}

// The first frontier from a number on whose mark has bit p, or else the end, n.
// By hand, as no plainer: a merge goes on from this place, so the end is a place as any other, and no missing one.
pub fn next_marked(marks: &[u8], n: usize, from: usize, p: u32) -> usize
    requires n_in_bounds { (n ≤ length marks.now) × (from ≤ n) }
    requires p_bound { p < 64 }
    ensures upper_bound { result ≤ n }
    ensures from_value { (t : Frontier → Bool) (w : ℕ) (window : List ℕ) → Tells p t w window n marks.now → rest_of t w window n from ≡ rest_of t w window n result }
    ensures result_value { (t : Frontier → Bool) (w : ℕ) (window : List ℕ) → Tells p t w window n marks.now → result < n → t (frontier_at w window result) ≡ true }
{
    for next in from..n {
        if is_marked(marks[next], p) {
            return next;
        }
    }
    n
}

// Whether the next one to be laid down is new: i is the next that stays, j the next that the event leads on from.
#[inline(always)]
pub fn fresh_first(window: &[u8], w: CountWidth, n: usize, i: usize, j: usize, e: Event) -> bool
    requires room_for { RoomFor w n window.now }
    requires j_value { j < n → takes e (frontier_at w window.now j) ≡ true }
    ensures { result ≡ fresh_at e w window.now n i j }
{
    if n <= j {
        return false;
    }
    if n <= i {
        return true;
    }
    let from = frontiers::stored::counts_at(window, w, j);
    let there = clocks::step::apply(e, from);
    let here = frontiers::stored::counts_at(window, w, i);
    lookup::order::counts_before(there, here)
}

// Lays down in the scratch all frontiers that there are after the event, by the marks.
pub fn lay_all(window: &[u8], marks: &[u8], scratch: &mut [u8], table: &[u8], fixed: &Stepping)
    requires room_for { RoomFor fixed.now.w fixed.now.n window.now }
    requires room_for_2 { RoomFor fixed.now.w fixed.now.kept scratch.old }
    requires table_len { 3 * fixed.now.lines ≤ length table.now }
    requires kept_value { fixed.now.kept ≡ kept_after (setting_of fixed.now table.now) (frontiers_of fixed.now window.now) }
    requires n_in_bounds { fixed.now.n ≤ length marks.now }
    requires marked { Marked (setting_of fixed.now table.now) fixed.now.w window.now fixed.now.n marks.now }
    ensures { frontiers fixed.now.w scratch.new fixed.now.kept ≡ stepped_of fixed.now table.now window.now }
{
    let w = fixed.w;
    let n = fixed.n;
    let e = fixed.event;
    let full = crate::advance::full_bytes(e.mask);
    let mut hints = [0usize; 8];
    let mut i = next_marked(marks, n, 0, STAYS);
    let mut j = next_marked(marks, n, 0, LEADS);
    for m in 0..fixed.kept {
        if fresh_first(window, w, n, i, j, e) {
            let ended = crate::lay::lay_fresh(window, scratch, table, fixed, full, j, m, hints);
            hints = ended;
            j = next_marked(marks, n, j + 1, LEADS);
        } else {
            crate::lay::lay_staying(window, scratch, w, i, m);
            i = next_marked(marks, n, i + 1, STAYS);
        }
    }
}
