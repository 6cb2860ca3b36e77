// Take's trial of the pending events (01, The calls: take; 02 [2]): each ready one in turn, first its clock and then
// its fit, until one is decided on.

#![tactic(auto)]

// The order in which they are tried.
mod turn;

ghost use Rattle.std.specs.Prelude.{◌≤◌, ◌≡◌, ◌&&◌, T, ltb, leb, length};
ghost use Rattle.frontiers.specs.Width.{Width};
ghost use Rattle.frontiers.specs.Bytes.{frontiers};
ghost use Rattle.window.specs.Step.{kept_after};
ghost use Rattle.window.specs.Room.{RoomFor};
ghost use Rattle.window.specs.Marks.{Marked};
ghost use Rattle.records.specs.Record.{record_length, process_count, pending_count, ready_in};
ghost use Rattle.trial.specs.Trial.{setting_in, trial};
ghost use Rattle.trial.specs.TrialCode.{choice_for, MarkedFor};

use clocks::Event;
use frontiers::stored::counts_at;
use frontiers::width::CountWidth;
use lookup::order::counts_same;
use records::fields::{closed_mask, pending_count, pending_event, process_count, taken_counts};
use turn::{in_order, place_in_turn};

// What take decides on: nothing (was some event ready?), a pending event that has a false clock, or one that is taken
// and the frontiers that are kept then.
#[derive(Clone, Copy)]
pub enum Choice {
    Undecided { seen: bool },
    Falsified { place: usize },
    Chosen { place: usize, kept: usize },
}

// How many frontiers are kept once a ready event is taken; the marks say what comes of each.
// By hand, as promised: docs/DECISIONS.md names this function, so it asks for a number as before.
pub fn kept_with(
    record: &[u8],
    w: usize,
    window: &[u8],
    marks: &mut [u8],
    n: usize,
    e: Event,
) -> usize
    requires width { Width w }
    requires record_len { length «record».now ≡ record_length w }
    requires record_bound { process_count «record».now ≤ 8 }
    requires room_for { RoomFor w n window.now }
    requires t { T (ready_in w «record».now e) }
    requires n_in_bounds { n ≤ length marks.old }
    ensures value { result ≡ kept_after (setting_in w «record».now e) (frontiers w window.now n) }
    ensures marked { Marked (setting_in w «record».now e) w window.now n marks.new }
{
    let k = process_count(record);
    let closed = u64::from(closed_mask(record));
    let reached = clocks::step::apply(e, taken_counts(record, CountWidth::of(w)));
    window::kept::count_after(window, marks, w, n, k, closed, e, reached)
}

// So many frontiers fit where at most so many are allowed; none at all never fit.
fn fitting(kept: usize, allowed: usize) -> bool
    ensures { result ≡ (ltb 0 kept && leb kept allowed) }
{
    0 < kept && kept <= allowed
}

// The first pending event in turn that has a false clock, or that fits, with its marks; or none, and whether one was
// ready. The kept frontiers are looked through for what an event knows of, one by one: on any bytes, in any order.
// By hand, as promised: docs/DECISIONS.md names this function, so it asks for a number as before.
pub fn decide(
    record: &[u8],
    w: usize,
    window: &[u8],
    marks: &mut [u8],
    n: usize,
    allowed: usize,
) -> Choice
    requires width { Width w }
    requires record_len { length «record».now ≡ record_length w }
    requires record_bound { process_count «record».now ≤ 8 }
    requires record_bound_2 { pending_count «record».now ≤ 32 }
    requires room_for { RoomFor w n window.now }
    requires n_in_bounds { n ≤ length marks.old }
    ensures value { result ≡ choice_for w «record».now (frontiers w window.now n) (trial w «record».now allowed (frontiers w window.now n)) }
    ensures marked_for { MarkedFor w «record».now window.now n marks.new result }
{
    let width = CountWidth::of(w);
    let taken = taken_counts(record, width);
    let pending = pending_count(record);
    let ordered = in_order(record, width, pending);
    let mut choice = Choice::Undecided { seen: false };
    'events: for turn in 0..pending {
        let i = place_in_turn(record, width, pending, ordered, turn);
        let e = pending_event(record, width, i);
        if clocks::step::ready(e, taken) {
            let known = clocks::step::lowered(e);
            for j in 0..n {
                if counts_same(counts_at(window, width, j), known) {
                    let kept = kept_with(record, w, window, marks, n, e);
                    if fitting(kept, allowed) {
                        choice = Choice::Chosen { place: i, kept };
                        break 'events;
                    }
                    choice = Choice::Undecided { seen: true };
                    continue 'events;
                }
            }
            choice = Choice::Falsified { place: i };
            break 'events;
        }
    }
    choice
}
