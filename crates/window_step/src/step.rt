// A window's step for an event: its frontiers are laid down in the scratch, and copied back.

ghost use Rattle.std.specs.Prelude.{◌*◌, ◌-◌, ◌≤◌, ◌≡◌, length, replicate};
ghost use Rattle.frontiers.specs.Bytes.{frontier_length, frontiers, replaced};
ghost use Rattle.window.specs.Step.{kept_after};
ghost use Rattle.window.specs.Room.{RoomFor};
ghost use Rattle.window_step.specs.Fixed.{setting_of, frontiers_of, stepped_of};
ghost use Rattle.window.specs.Marks.{Marked};

use crate::Stepping;
use frontiers::width::CountWidth;

// How many bytes are left of n frontiers after m others.
#[inline(always)]
fn left_over(w: CountWidth, n: usize, m: usize) -> usize
    requires n_bound { n ≤ 1024 }
    ensures { result ≡ (n - m) * frontier_length w }
{
    frontiers::place::frontier_place(w, n.saturating_sub(m))
}

// The first m frontiers of the scratch take the place of the window's n; what is left of those and the scratch are
// cleared.
#[inline(always)]
pub fn copy_back(window: &mut [u8], scratch: &mut [u8], w: CountWidth, n: usize, m: usize)
    requires room_for { RoomFor w n window.old }
    requires room_for_2 { RoomFor w m window.old }
    requires room_for_3 { RoomFor w m scratch.old }
    ensures window_after { window.new ≡ replaced w window.old n (frontiers w scratch.old m) }
    ensures scratch_after { scratch.new ≡ replicate (length scratch.old) 0 }
    ensures m_after { frontiers w window.new m ≡ frontiers w scratch.old m }
{
    let count = frontiers::place::frontier_place(w, m);
    frontiers::moving::copy_in(window, 0, scratch, count);
    frontiers::moving::clear(window, count, left_over(w, n, m));
    frontiers::moving::clear_all(scratch);
}

// The window after the event, of so many frontiers as are kept; the scratch is cleared.
pub fn step(window: &mut [u8], marks: &[u8], scratch: &mut [u8], table: &[u8], fixed: &Stepping)
    requires room_for { RoomFor fixed.now.w fixed.now.n window.old }
    requires room_for_2 { RoomFor fixed.now.w fixed.now.kept scratch.old }
    requires room_for_3 { RoomFor fixed.now.w fixed.now.kept window.old }
    requires table_len { 3 * fixed.now.lines ≤ length table.now }
    requires kept_value { fixed.now.kept ≡ kept_after (setting_of fixed.now table.now) (frontiers_of fixed.now window.old) }
    requires n_in_bounds { fixed.now.n ≤ length marks.now }
    requires marked { Marked (setting_of fixed.now table.now) fixed.now.w window.old fixed.now.n marks.now }
    ensures window_after { window.new ≡ replaced fixed.now.w window.old fixed.now.n (stepped_of fixed.now table.now window.old) }
    ensures scratch_after { scratch.new ≡ replicate (length scratch.old) 0 }
    ensures kept_after { frontiers fixed.now.w window.new fixed.now.kept ≡ stepped_of fixed.now table.now window.old }
{
    // By hand, for speed: read only after the merge, the wide take is 2 to 3 of a hundred slower.
    let w = fixed.w;
    let n = fixed.n;
    let kept = fixed.kept;
    crate::merge::lay_all(window, marks, scratch, table, fixed);
    copy_back(window, scratch, w, n, kept);
}
