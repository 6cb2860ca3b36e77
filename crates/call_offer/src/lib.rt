// Offer (01, The calls; 02 [1], [5]): an event is added to the pending ones, in its place by lowest process and count;
// or it is one of them already, or turned back.

#![tactic(auto)]

// How an offer that is not accepted is answered.
pub mod unaccepted;

ghost use Rattle.std.specs.Prelude.{ℕ, ◌≤◌, ◌<◌, ◌^◌, ◌≡◌, cond, length};
ghost use Rattle.clocks.specs.Counts.{at};
ghost use Rattle.frontiers.specs.Width.{Width};
ghost use Rattle.records.specs.Record.{record_length, pending_count, pending_events};
ghost use Rattle.call_offer.specs.Offer.{place_among, offered_event, offer_call};
ghost use Rattle.answers.specs.Answer.{reply_word};
ghost use Rattle.call_offer.specs.OfferCode.{unaccepted_word};
ghost use Rattle.call_offer.specs.Unaccepted.{unaccepted};
ghost use Rattle.numbers.specs.RefusalNumber.{refused};
ghost use Rattle.refusals.specs.Refusals as conditions;
ghost use Rattle.repeats.specs.Repeats as repeats;

use crate::unaccepted::Unaccepted;
use clocks::Event;
use frontiers::width::CountWidth;
use numbers::limit::{FRONTIERS, PENDING};
use numbers::refusal::Refusal;
use records::fields::{closed_mask, pending_count, pending_event, process_count, taken_counts};
use refusals::{already_taken, bad_record_length, bad_state, names_closed};
use repeats::{conflicting, repeated};
use updates::insert_event;

// The event that an offer brings.
fn offered_event(mask: u64, clock: [u32; 8], labels: [u8; 8]) -> Event
    ensures { result ≡ offered_event mask clock labels }
{
    Event {
        mask: (mask % 256) as u8,
        clock,
        labels,
    }
}

// The place of an event among the pending ones: after those whose key is before its own.
#[inline(always)]
pub fn place_among(record: &[u8], w: CountWidth, e: Event) -> usize
    requires record_len { length «record».now ≡ record_length w }
    requires record_bound { pending_count «record».now ≤ 32 }
    ensures { (result ≡ place_among e (pending_events w «record».now)) × (result ≤ pending_count «record».now) }
{
    let n = pending_count(record);
    let key = clocks::order::key(e);
    (0..n)
        .find(|&i| !clocks::order::key_before(clocks::order::key(pending_event(record, w, i)), key))
        .unwrap_or(n)
}

// Whether a pending event is the same. Such a one conflicts, so that without a conflict there is none to look for.
#[inline(always)]
fn sent_again(suspected: bool, record: &[u8], w: CountWidth, e: Event) -> bool
    requires record_len { length «record».now ≡ record_length w }
    requires record_bound { pending_count «record».now ≤ 32 }
    requires mask_nonzero { 0 < e.mask }
    requires suspected_value { suspected ≡ conditions.conflicting e (pending_events w «record».now) }
    ensures { result ≡ repeats.repeated e (pending_events w «record».now) }
{
    suspected && repeated(record, w, e)
}

// What the processes of an event turn an offer back for, in their order: 42 where one is closed, 31 where one's count is
// taken.
fn judge_processes(closed: bool, taken: bool) -> Result<(), Refusal>
    ensures { refused result ≡ cond closed 42 (cond taken 31 0) }
{
    if closed {
        return Err(Refusal::Named);
    }
    if taken {
        return Err(Refusal::Taken);
    }
    Ok(())
}

// What the pending events answer an offer, in their order: again, or a refusal.
fn judge_pending(again: bool, conflict: bool, full: bool) -> Result<(), Unaccepted>
    ensures { unaccepted result ≡ cond again 256 (cond conflict 32 (cond full 33 0)) }
{
    if again {
        return Err(Unaccepted::Again);
    }
    if conflict {
        return Err(Unaccepted::Refused(Refusal::Conflict));
    }
    if full {
        return Err(Unaccepted::Refused(Refusal::Full));
    }
    Ok(())
}

// Whether an offer is accepted, and else how it is answered: a refusal or again, in their order.
// By hand, as promised: docs/REQUEST-NOTES.md names this function (`unaccepted_word` before), so it asks for a number.
pub fn judge(
    w: usize,
    mask: u64,
    clock: [u32; 8],
    labels: [u8; 8],
    record: &[u8],
) -> Result<(), Unaccepted>
    requires { Width w }
    ensures { unaccepted result ≡ unaccepted_word w mask clock labels «record».now }
{
    let width = CountWidth::of(w);
    if bad_record_length(width, record.len()) {
        return Err(Unaccepted::Refused(Refusal::Length));
    }
    if bad_state(record, width, FRONTIERS) {
        return Err(Unaccepted::Refused(Refusal::State));
    }
    clocks::refusal::event_fault(process_count(record), mask, clock, labels)?;
    let e = offered_event(mask, clock, labels);
    let closed = names_closed(e, closed_mask(record));
    let taken = already_taken(e, taken_counts(record, width));
    judge_processes(closed, taken)?;
    let conflict = conflicting(record, width, e);
    let again = sent_again(conflict, record, width, e);
    let full = PENDING <= pending_count(record);
    judge_pending(again, conflict, full)
}

// Offers an event: the reply, and the record's bytes after it.
// By hand, as promised: docs/PROOF-MAP.md names this function, so it asks for a number as before.
pub fn offer(w: usize, mask: u64, clock: [u32; 8], labels: [u8; 8], record: &mut [u8]) -> u64
    requires width { Width w }
    requires by_index { (p : ℕ) → at clock p < 256 ^ w }
    ensures reply { result ≡ reply_word (offer_call w mask clock labels «record».old).answer }
    ensures bytes { «record».new ≡ (offer_call w mask clock labels «record».old).bytes }
{
    let width = CountWidth::of(w);
    if let Err(answer) = judge(w, mask, clock, labels, record) {
        return answer.into();
    }
    let e = offered_event(mask, clock, labels);
    let n = pending_count(record);
    let i = place_among(record, width, e);
    insert_event(record, width, i, e);
    65536 * ((n + 1) as u64)
}
