// Frontiers laid down in the scratch: one that stays, and a new one that is judged.

ghost use Rattle.std.specs.Prelude.{◌+◌, ◌*◌, ◌≤◌, ◌≡◌, [], ◌∷◌, ◌++◌, T, length};
ghost use Rattle.clocks.specs.Counts.{at};
ghost use Rattle.clocks.specs.Tested.{ready};
ghost use Rattle.frontiers.specs.Bytes.{frontier_at, frontiers};
ghost use Rattle.window.specs.Room.{PlaceFor};
ghost use Rattle.window_step.specs.Fixed.{setting_of};
ghost use Rattle.window_step.specs.FullBytes.{full_bytes};
ghost use Rattle.window_step.specs.Gathering.{fresh_from, hints_from};

use crate::Stepping;
use frontiers::Frontier;
use frontiers::listed::Frontiers;
use frontiers::width::CountWidth;

// Frontier i of the window stays: it is laid down as number m.
#[inline(always)]
pub fn lay_staying(window: &[u8], scratch: &mut [u8], w: CountWidth, i: usize, m: usize)
    requires place_for { PlaceFor w i window.now }
    requires place_for_2 { PlaceFor w m scratch.old }
    ensures { frontiers w scratch.new (m + 1) ≡ frontiers w scratch.old m ++ (frontier_at w window.now i ∷ []) }
{
    let f = frontiers::stored::frontier_at(window, w, i);
    frontiers::stored::lay_frontier(scratch, w.bytes(), m, f);
}

// The event leads on from frontier j of the window: the new frontier is judged and laid down as number m. Gives where
// the next look-ups begin.
pub fn lay_fresh(
    window: &[u8],
    scratch: &mut [u8],
    table: &[u8],
    fixed: &Stepping,
    full: [u8; 8],
    j: usize,
    m: usize,
    hints: [usize; 8],
) -> [usize; 8]
    requires place_for { PlaceFor fixed.now.w j window.now }
    requires place_for_2 { PlaceFor fixed.now.w m scratch.old }
    requires table_len { 3 * fixed.now.lines ≤ length table.now }
    requires t { T (ready 8 fixed.now.event (at (frontier_at fixed.now.w window.now j).counts)) }
    requires full_value { full ≡ full_bytes fixed.now.event.mask }
    ensures value { result ≡ hints_from (setting_of fixed.now table.now) (frontiers fixed.now.w scratch.old m) hints (frontier_at fixed.now.w window.now j) }
    ensures m_after { frontiers fixed.now.w scratch.new (m + 1) ≡ frontiers fixed.now.w scratch.old m ++ (fresh_from (setting_of fixed.now table.now) (frontiers fixed.now.w scratch.old m) hints (frontier_at fixed.now.w window.now j) ∷ []) }
{
    let w = fixed.w;
    let e = fixed.event;
    let f = frontiers::stored::frontier_at(window, w, j);
    let g = crate::advance::advanced(e, full, f);
    let laid = Frontiers::of(scratch, w, m);
    let found = crate::gather::gather(&laid, fixed.k, e.mask, g, hints);
    let values = pactl::judging::judge(table, fixed.lines, g.labels, found.ors, found.ands, true);
    let judged = Frontier { values, ..g };
    frontiers::stored::lay_frontier(scratch, w.bytes(), m, judged);
    found.hints
}
