// Take (01, The calls): the pending events are tried; the first that is decided on is taken, or leaves with a false
// clock.

#![tactic(auto)]

ghost use Rattle.std.specs.Prelude.{ℕ, ◌-◌, ◌^◌, ◌≤◌, ◌<◌, ◌≡◌, cond, T, map, length, get_or, replicate};
ghost use Rattle.numbers.specs.RefusalNumber.{refused};
ghost use Rattle.codec.specs.Bit.{bit};
ghost use Rattle.clocks.specs.Counts.{at};
ghost use Rattle.frontiers.specs.Width.{Width};
ghost use Rattle.frontiers.specs.Bytes.{frontiers, replaced};
ghost use Rattle.window.specs.Step.{kept_after, stepped};
ghost use Rattle.window.specs.StepCode.{Fitting};
ghost use Rattle.window.specs.Room.{RoomFor};
ghost use Rattle.window.specs.Marks.{Marked};
ghost use Rattle.records.specs.Record.{record_length, process_count, line_total, pending_count, kept_count, pending_at, removed, counted, ready_in};
ghost use Rattle.answers.specs.Answer.{turned_back, nothing_ready, reply_word};
ghost use Rattle.trial.specs.Trial.{setting_in, chosen};
ghost use Rattle.call_take.specs.Take.{decided, take_within, take_call};
ghost use Rattle.call_take.specs.TakeCode.{take_fault};

use answers::state_word;
use clocks::Event;
use frontiers::moving::clear_all;
use frontiers::width::CountWidth;
use numbers::refusal::Refusal;
use records::fields::{
    closed_mask, kept_count, line_total, pending_event, process_count, table_place, taken_counts,
};
use refusals::{bad_record_length, bad_state, bad_window_length, room_of};
use trial::{Choice, decide};
use updates::{count_taken, remove_event};
use window_step::Stepping;

// The window's step for a ready event, by the record's table and counts.
#[inline(always)]
fn step_window(
    record: &[u8],
    w: CountWidth,
    window: &mut [u8],
    marks: &[u8],
    scratch: &mut [u8],
    n: usize,
    kept: usize,
    e: Event,
)
    requires record_len { length «record».now ≡ record_length w }
    requires record_bound { (process_count «record».now ≤ 8) × (line_total «record».now ≤ 64) }
    requires room_for { RoomFor w n window.old }
    requires room_for_2 { RoomFor w kept window.old }
    requires scratch_len { length scratch.old ≡ length window.old }
    requires fitting { Fitting w e }
    requires t { T (ready_in w «record».now e) }
    requires kept_value { kept ≡ kept_after (setting_in w «record».now e) (frontiers w window.old n) }
    requires n_in_bounds { n ≤ length marks.now }
    requires marked { Marked (setting_in w «record».now e) w window.old n marks.now }
    ensures window { window.new ≡ replaced w window.old n (stepped (setting_in w «record».now e) (frontiers w window.old n)) }
    ensures scratch { scratch.new ≡ replicate (length scratch.old) 0 }
    ensures frontiers { frontiers w window.new kept ≡ stepped (setting_in w «record».now e) (frontiers w window.old n) }
{
    let k = process_count(record);
    let closed = u64::from(closed_mask(record));
    let lines = line_total(record);
    let reached = clocks::step::apply(e, taken_counts(record, w));
    let place = table_place(w);
    let fixed = Stepping {
        w,
        n,
        kept,
        k,
        closed,
        event: e,
        reached,
        lines,
    };
    window_step::step::step(window, marks, scratch, &record[place..], &fixed);
}

// The rule's truth at the last of so many frontiers: the table's last line.
#[inline(always)]
fn verdict(window: &[u8], w: CountWidth, kept: usize, lines: u32) -> bool
    requires le_kept { (1 ≤ kept) × RoomFor w kept window.now }
    requires le_lines { (1 ≤ lines) × (lines ≤ 64) }
    ensures { result ≡ bit (get_or (map (λ f. f.values) (frontiers w window.now kept)) (kept - 1) 0) (lines - 1) }
{
    codec::has_bit(frontiers::stored::values_at(window, w, kept - 1), lines - 1)
}

// Pending event number i leaves and is counted as taken.
#[inline(always)]
fn count_event(record: &mut [u8], w: CountWidth, i: usize, e: Event, kept: u32)
    requires record_len { length «record».old ≡ record_length w }
    requires i_bound { (i < pending_count «record».old) × (pending_count «record».old ≤ 32) }
    requires by_index { (p : ℕ) → at e.clock p < 256 ^ w }
    requires t { T (ready_in w «record».old e) }
    ensures { «record».new ≡ counted w (removed w «record».old i) e kept }
{
    remove_event(record, w, i);
    count_taken(record, w, e, kept);
}

// Takes pending event number i, with which so many frontiers are kept: the reply, and the bytes of the three buffers
// after it.
#[inline(always)]
fn take_event(
    record: &mut [u8],
    w: CountWidth,
    window: &mut [u8],
    marks: &[u8],
    scratch: &mut [u8],
    n: usize,
    i: usize,
    kept: usize,
) -> u64
    requires record_len { length «record».old ≡ record_length w }
    requires record_bound { (process_count «record».old ≤ 8) × (1 ≤ line_total «record».old) × (line_total «record».old ≤ 64) }
    requires room_for { RoomFor w n window.old }
    requires le_kept { (1 ≤ kept) × RoomFor w kept window.old }
    requires scratch_len { length scratch.old ≡ length window.old }
    requires i_bound { (i < pending_count «record».old) × (pending_count «record».old ≤ 32) }
    requires t { T (ready_in w «record».old (pending_at w «record».old i)) }
    requires kept_value { kept ≡ kept_after (setting_in w «record».old (pending_at w «record».old i)) (frontiers w window.old n) }
    requires n_in_bounds { n ≤ length marks.now }
    requires marked { Marked (setting_in w «record».old (pending_at w «record».old i)) w window.old n marks.now }
    ensures reply { result ≡ reply_word (decided w «record».old window.old (frontiers w window.old n) (chosen i)).answer }
    ensures bytes { «record».new ≡ (decided w «record».old window.old (frontiers w window.old n) (chosen i)).bytes }
    ensures window { window.new ≡ (decided w «record».old window.old (frontiers w window.old n) (chosen i)).window }
    ensures scratch { scratch.new ≡ replicate (length window.old) 0 }
{
    let e = pending_event(record, w, i);
    let lines = line_total(record);
    step_window(record, w, window, marks, scratch, n, kept, e);
    count_event(record, w, i, e, kept as u32);
    state_word(verdict(window, w, kept, lines), kept as u32)
}

// The word of a take that decides on no event: 36 where one was ready, else nothing ready.
fn undecided_word(seen: bool) -> u64
    ensures { result ≡ reply_word (cond seen (turned_back 36 0) nothing_ready) }
{
    if seen { Refusal::NoRoom.into() } else { 0 }
}

// Takes an event where at most so many frontiers of the window may be used: the reply, and the bytes of the three
// buffers after it.
pub fn take_within(
    w: usize,
    allowed: usize,
    record: &mut [u8],
    window: &mut [u8],
    scratch: &mut [u8],
) -> u64
    // By hand, for speed: as a number, which the compiler knows to be 4 in the wide form. Of the type it did not, and
    // each loop of a take was compiled for both widths and tested which.
    requires width { Width w }
    requires record_len { length «record».old ≡ record_length w }
    requires record_bound { (process_count «record».old ≤ 8) × (1 ≤ line_total «record».old) × (line_total «record».old ≤ 64) }
    requires record_bound_2 { pending_count «record».old ≤ 32 }
    requires room_for { RoomFor w (kept_count «record».old) window.old }
    requires room_for_2 { RoomFor w allowed window.old }
    requires scratch_len { length scratch.old ≡ length window.old }
    ensures reply { result ≡ reply_word (take_within w allowed «record».old window.old).answer }
    ensures bytes { «record».new ≡ (take_within w allowed «record».old window.old).bytes }
    ensures window { window.new ≡ (take_within w allowed «record».old window.old).window }
    ensures scratch { scratch.new ≡ (take_within w allowed «record».old window.old).scratch }
{
    let width = CountWidth::of(w);
    let n = kept_count(record) as usize;
    let mut marks = [0u8; 1024];
    let choice = decide(record, w, window, &mut marks, n, allowed);
    match choice {
        Choice::Undecided { seen } => {
            clear_all(scratch);
            undecided_word(seen)
        }
        Choice::Falsified { place } => {
            remove_event(record, width, place);
            clear_all(scratch);
            Refusal::FalseClock.into()
        }
        Choice::Chosen { place, kept } => take_event(
            record, width, window, &marks, scratch, n, place, kept,
        ),
    }
}

// What a take is turned back for, in their order.
#[inline(always)]
pub fn take_fault(w: CountWidth, record: &[u8], n: usize, m: usize) -> Result<(), Refusal>
    ensures { refused result ≡ take_fault w «record».now n m }
{
    if bad_record_length(w, record.len()) || bad_window_length(w, n) || m != n {
        return Err(Refusal::Length);
    }
    if bad_state(record, w, room_of(w, n)) {
        return Err(Refusal::State);
    }
    Ok(())
}

// Takes the first event that is decided on: the reply, and the bytes of the three buffers after it.
// By hand, as promised: docs/PROOF-MAP.md names this function, so it asks for a number as before.
pub fn take(w: usize, record: &mut [u8], window: &mut [u8], scratch: &mut [u8]) -> u64
    requires { Width w }
    ensures reply { result ≡ reply_word (take_call w «record».old window.old scratch.old).answer }
    ensures bytes { «record».new ≡ (take_call w «record».old window.old scratch.old).bytes }
    ensures window { window.new ≡ (take_call w «record».old window.old scratch.old).window }
    ensures scratch { scratch.new ≡ (take_call w «record».old window.old scratch.old).scratch }
{
    let width = CountWidth::of(w);
    match take_fault(width, record, window.len(), scratch.len()) {
        Err(refusal) => refusal.into(),
        Ok(()) => take_within(w, room_of(width, window.len()), record, window, scratch),
    }
}
