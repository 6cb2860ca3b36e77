// Events compared with the pending ones (01, Turned back: 32; 02 [1]): equality of events, and the search for an equal
// one, or for one with a count in common.

#![tactic(auto)]

ghost use Rattle.std.specs.Prelude.{◌≤◌, ◌≡◌, Bool, length};
ghost use Rattle.clocks.specs.Bounded.{any_of};
ghost use Rattle.clocks.specs.declared.Event.{Event};
ghost use Rattle.clocks.specs.SameEvent.{same_event};
ghost use Rattle.frontiers.specs.Width.{Width};
ghost use Rattle.records.specs.Record.{record_length, pending_count, pending_events};
ghost use Rattle.refusals.specs.Refusals as conditions;
ghost use Rattle.repeats.specs.Repeats as repeats;
ghost use Rattle.repeats.specs.RepeatsCode as code;

use clocks::Event;
use frontiers::width::CountWidth;
use records::fields::{pending_count, pending_event};
use refusals::conflicts;

// Whether two events are the same, by mask, eight counts and eight labels.
pub fn same_event(a: Event, b: Event) -> bool
    ensures { result ≡ same_event a b }
{
    // By hand, for speed: most events differ in the first count, to which the equality alone comes last.
    a.clock[0] == b.clock[0] && a == b
}

// Whether a pending event passes a test.
// By hand, for the proof: in a closure under `any` the check does not find that i is a pending event's number.
#[inline(always)]
pub fn any_pending<F: Fn(Event) -> bool>(record: &[u8], w: CountWidth, alike: F) -> bool
    requires record_len { length «record».now ≡ record_length w }
    requires record_bound { pending_count «record».now ≤ 32 }
    requires callable { F.IsAlwaysCallable alike }
    ensures { (test : Event → Bool) → ((f : Event) (b : Bool) → F.post alike f b → b ≡ test f)
        → result ≡ any_of test (pending_events w «record».now) }
{
    for i in 0..pending_count(record) {
        if alike(pending_event(record, w, i)) {
            return true;
        }
    }
    false
}

// Whether a pending event is the same as this one, or else has the same count at a common process: "again", or 32.
// By hand, as promised: docs/DECISIONS.md names this function, so it asks for a number and a flag as before.
#[inline(always)]
pub fn pending_alike(record: &[u8], w: usize, e: Event, whole: bool) -> bool
    requires width { Width w }
    requires record_len { length «record».now ≡ record_length w }
    requires record_bound { pending_count «record».now ≤ 32 }
    ensures { result ≡ any_of (code.alike whole e) (pending_events w «record».now) }
{
    let width = CountWidth::of(w);
    if whole {
        return any_pending(record, width, |f| same_event(e, f));
    }
    any_pending(record, width, |f| conflicts(e, f))
}

// Whether a pending event is the same: "again".
#[inline(always)]
pub fn repeated(record: &[u8], w: CountWidth, e: Event) -> bool
    requires record_len { length «record».now ≡ record_length w }
    requires record_bound { pending_count «record».now ≤ 32 }
    ensures { result ≡ repeats.repeated e (pending_events w «record».now) }
{
    pending_alike(record, w.bytes(), e, true)
}

// 32: a pending event has the same count at a common process.
#[inline(always)]
pub fn conflicting(record: &[u8], w: CountWidth, e: Event) -> bool
    requires record_len { length «record».now ≡ record_length w }
    requires record_bound { pending_count «record».now ≤ 32 }
    ensures { result ≡ conditions.conflicting e (pending_events w «record».now) }
{
    pending_alike(record, w.bytes(), e, false)
}
