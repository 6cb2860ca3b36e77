// How many frontiers there are after an event, and what comes of each.

ghost use Rattle.std.specs.Prelude.{◌≡◌, ℕ, ◌≤◌, List, length};
ghost use Rattle.clocks.specs.Event.{one};
ghost use Rattle.frontiers.specs.Width.{Width};
ghost use Rattle.frontiers.specs.Bytes.{frontiers};
ghost use Rattle.window.specs.Step.{kept_after};
ghost use Rattle.window.specs.StepCode.{setting_with};
ghost use Rattle.window.specs.Room.{RoomFor};
ghost use Rattle.window.specs.Marks.{Marked};
ghost use Rattle.window.specs.Prepared.{Counted};

use crate::prepared::{lowest_counts, open_ones, spans, stays, within};
use clocks::Event;
use frontiers::width::CountWidth;

// How many frontiers there are after the event; each frontier's mark says what comes of it.
// By hand, as promised: docs/DECISIONS.md names this function, so it asks for a number as before.
pub fn count_after(
    window: &[u8],
    marks: &mut [u8],
    w: usize,
    n: usize,
    k: u32,
    closed: u64,
    e: Event,
    reached: [u32; 8],
) -> usize
    requires width { Width w }
    requires room_for { RoomFor w n window.now }
    requires k_bound { k ≤ 8 }
    requires n_in_bounds { n ≤ length marks.old }
    requires counted { Counted e }
    ensures by_index { (table : List ℕ) (lines : ℕ) → result ≡ kept_after (setting_with k closed table lines e reached) (frontiers w window.now n) }
    ensures upper_bound { result ≤ 2048 }
    ensures by_index_2 { (table : List ℕ) (lines : ℕ) → Marked (setting_with k closed table lines e reached) w window.now n marks.new }
{
    let width = CountWidth::of(w);
    let low = lowest_counts(e);
    let span = spans(e);
    let opens = open_ones(k, closed);
    let mut total = 0;
    for i in 0..n {
        let counts = frontiers::stored::counts_at(window, width, i);
        let here = u8::from(stays(opens, reached, counts));
        let there = u8::from(within(low, span, counts));
        marks[i] = here + 2 * there;
        total += usize::from(here + there);
    }
    total
}
