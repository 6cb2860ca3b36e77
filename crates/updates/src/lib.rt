// The record's bytes, changed: a pending event put in or taken out, a taken event counted.

#![tactic(auto)]

ghost use Rattle.std.specs.Prelude.{ℕ, ◌+◌, ◌*◌, ◌^◌, ◌≤◌, ◌<◌, ◌≡◌, T, length};
ghost use Rattle.std.proofs.lemmas.List.Edits.{sets};
ghost use Rattle.clocks.specs.Counts.{at};
ghost use Rattle.frontiers.specs.Width.{Width};
ghost use Rattle.frontiers.specs.Bytes.{count_bytes};
ghost use Rattle.records.specs.Record.{event_length, record_length, pending_count, event_bytes, inserted, removed, clocks_set, counted, ready_in};

use clocks::Event;
use frontiers::moving::{clear, move_down, move_up};
use frontiers::width::CountWidth;
use records::fields::{event_length, pending_count, pending_place, taken_counts};

// Stores eight counts at a place.
#[tactic(auto, using(frontiers::specs::StoreLaws::lent_tail))]
#[inline(always)]
pub fn write_counts_at(record: &mut [u8], w: CountWidth, place: usize, counts: [u32; 8])
    requires w_in_bounds { place + 8 * w ≤ length «record».old }
    requires by_index { (p : ℕ) → at counts p < 256 ^ w }
    ensures { «record».new ≡ sets «record».old place (count_bytes w counts) }
{
    frontiers::counts::write_counts(&mut record[place..], w, counts);
}

// Stores a pending event's bytes at a place.
// By hand, as promised: docs/DECISIONS.md names this function, so it asks for a number as before.
#[tactic(auto, using(crate::proofs::UpdateSteps::stored_event))]
pub fn write_event(record: &mut [u8], w: usize, place: usize, e: Event)
    requires width { Width w }
    requires w_in_bounds { place + event_length w ≤ length «record».old }
    requires by_index { (p : ℕ) → at e.clock p < 256 ^ w }
    ensures { «record».new ≡ sets «record».old place (event_bytes w e) }
{
    record[place] = e.mask;
    clear(record, place + 1, 7);
    write_counts_at(record, CountWidth::of(w), place + 8, e.clock);
    frontiers::stored::write_eight(record, place + 8 + 8 * w, e.labels);
}

// Lays an event down as number i of the pending ones, those from i on moved up by one.
#[tactic(auto, using(records::specs::RecordLaws::place_below))]
#[inline(always)]
pub fn insert_event(record: &mut [u8], w: CountWidth, i: usize, e: Event)
    requires record_len { length «record».old ≡ record_length w }
    requires i_bound { i ≤ pending_count «record».old }
    requires record_bound { pending_count «record».old < 32 }
    requires by_index { (p : ℕ) → at e.clock p < 256 ^ w }
    ensures { «record».new ≡ inserted w «record».old i e }
{
    let n = pending_count(record);
    let place = pending_place(w, i);
    let end = pending_place(w, n);
    move_up(record, place, end - place, event_length(w));
    write_event(record, w.bytes(), place, e);
    record[2] = (n + 1) as u8;
}

// Takes pending event number i out, those behind it moved down by one, the freed place 0.
#[tactic(auto, using(records::specs::RecordLaws::place_below))]
#[inline(always)]
pub fn remove_event(record: &mut [u8], w: CountWidth, i: usize)
    requires record_len { length «record».old ≡ record_length w }
    requires i_bound { i < pending_count «record».old }
    requires record_bound { pending_count «record».old ≤ 32 }
    ensures { «record».new ≡ removed w «record».old i }
{
    let n = pending_count(record);
    let place = pending_place(w, i);
    let freed = pending_place(w, n - 1);
    let size = event_length(w);
    move_down(record, place, freed - place, size);
    clear(record, freed, size);
    record[2] = (n - 1) as u8;
}

// The clock of an event stored as the last one of each of its processes.
#[inline(always)]
pub fn set_clocks(record: &mut [u8], w: CountWidth, e: Event)
    requires record_len { length «record».old ≡ record_length w }
    requires by_index { (p : ℕ) → at e.clock p < 256 ^ w }
    ensures { «record».new ≡ clocks_set w 8 «record».old e }
{
    let mask = u64::from(e.mask);
    for p in 0..8 {
        if codec::has_bit(mask, p) {
            write_counts_at(
                record,
                w,
                8 + 8 * w.bytes() + p as usize * (8 * w.bytes()),
                e.clock,
            );
        }
    }
}

// Counts a ready event as taken: the taken counts with it, its clock as its processes' last, the frontiers kept.
#[inline(always)]
pub fn count_taken(record: &mut [u8], w: CountWidth, e: Event, kept: u32)
    requires record_len { length «record».old ≡ record_length w }
    requires by_index { (p : ℕ) → at e.clock p < 256 ^ w }
    requires t { T (ready_in w «record».old e) }
    ensures { «record».new ≡ counted w «record».old e kept }
{
    let counts = clocks::step::apply(e, taken_counts(record, w));
    codec::write_u32(record, 4, kept);
    write_counts_at(record, w, 8, counts);
    set_clocks(record, w, e);
}
