// What a call is turned back for by a record, a window or the state of a watch (01, Turned back: 6, 31, 32, 34; 02 [5]:
// 42).

#![tactic(auto)]

ghost use Rattle.std.specs.Prelude.{◌≡◌, length};
ghost use Rattle.clocks.specs.Counts.{at};
ghost use Rattle.frontiers.specs.Width.{Width};
ghost use Rattle.numbers.specs.RefusalNumber.{refused};
ghost use Rattle.records.specs.Record.{record_length};
ghost use Rattle.refusals.specs.Refusals.{bad_record_length, bad_window_length, room_of, bad_processes, bad_state, already_taken, names_closed};
ghost use Rattle.refusals.specs.RefusalCode.{bad_numbers};
ghost use Rattle.refusals.specs.RefusalCode.{watch_fault};
ghost use Rattle.refusals.specs.Refusals as conditions;

use clocks::Event;
use frontiers::width::CountWidth;
use numbers::limit::{FRONTIERS, LINES, PENDING, PROCESSES};
use numbers::refusal::Refusal;
use records::fields::{
    kept_count, line_total, pending_count, pending_place, process_count, table_place,
};

// 6: a record of a wrong length.
#[tactic(auto, unfolding(crate::specs::Refusals::bad_record_length))]
#[inline(always)]
pub fn bad_record_length(w: CountWidth, n: usize) -> bool
    ensures { result ≡ bad_record_length w n }
{
    n != pending_place(w, PENDING)
}

// 6: a window that has not 1 to 1,024 whole frontiers.
#[tactic(auto, unfolding(crate::specs::Refusals::bad_window_length, frontiers::specs::Bytes::frontier_length))]
#[inline(always)]
pub fn bad_window_length(w: CountWidth, n: usize) -> bool
    ensures { result ≡ bad_window_length w n }
{
    let size = frontiers::place::frontier_length(w);
    n < size || FRONTIERS * size < n || n % size != 0
}

// How many frontiers a lent window has room for.
#[tactic(auto, unfolding(crate::specs::Refusals::room_of, frontiers::specs::Bytes::frontier_length))]
#[inline(always)]
pub fn room_of(w: CountWidth, n: usize) -> usize
    ensures { result ≡ room_of w n }
{
    n / frontiers::place::frontier_length(w)
}

// 5: a number of processes that is not 1 to 8.
#[tactic(auto, unfolding(crate::specs::Refusals::bad_processes))]
pub fn bad_processes(k: u64) -> bool
    ensures { result ≡ bad_processes k }
{
    k == 0 || PROCESSES < k
}

// 34, of the record's numbers.
#[tactic(auto, unfolding(crate::specs::RefusalCode::bad_numbers))]
fn bad_numbers(k: u32, pending: usize, lines: u32, kept: usize, room: usize) -> bool
    ensures { result ≡ bad_numbers k pending lines kept room }
{
    bad_processes(u64::from(k))
        || PENDING < pending
        || lines == 0
        || LINES < lines
        || kept == 0
        || FRONTIERS < kept
        || room < kept
}

// 34: the state of a watch that no calls left, where a window has so much room.
#[inline(always)]
pub fn bad_state(record: &[u8], w: CountWidth, room: usize) -> bool
    requires record_len { length «record».now ≡ record_length w }
    ensures { result ≡ bad_state w room «record».now }
{
    let k = process_count(record);
    let lines = line_total(record);
    bad_numbers(
        k,
        pending_count(record),
        lines,
        kept_count(record) as usize,
        room,
    ) || !pactl::table::good_table(k, &record[table_place(w)..], lines)
}

// What record and window alone turn a call back with, for a window of n bytes.
// By hand, as promised: docs/DECISIONS.md names this function, so it asks for a number as before.
#[tactic(auto, using(crate::specs::RefusalLaws::right_length), unfolding(crate::specs::RefusalCode::watch_fault))]
pub fn watch_fault(w: usize, record: &[u8], n: usize) -> Result<(), Refusal>
    requires { Width w }
    ensures { refused result ≡ watch_fault w «record».now n }
{
    let width = CountWidth::of(w);
    if bad_record_length(width, record.len()) || bad_window_length(width, n) {
        return Err(Refusal::Length);
    }
    if bad_state(record, width, room_of(width, n)) {
        return Err(Refusal::State);
    }
    Ok(())
}

// 31: a process that takes part has this count taken already.
pub fn already_taken(e: Event, taken: [u32; 8]) -> bool
    ensures { result ≡ already_taken e (at taken) }
{
    let mask = u64::from(e.mask);
    (0..8u32).any(|p| codec::has_bit(mask, p) && e.clock[p as usize] <= taken[p as usize])
}

// 42, of an offer: the event names a closed process.
#[tactic(auto, using(crate::specs::RefusalLaws::named_by_mask))]
pub fn names_closed(e: Event, closed: u32) -> bool
    ensures { result ≡ names_closed closed e }
{
    u32::from(e.mask) & closed != 0
}

// Whether two events have the same count at a common process.
pub fn conflicts(e: Event, f: Event) -> bool
    ensures { result ≡ conditions.conflicts e f }
{
    let mask = u64::from(e.mask);
    let other = u64::from(f.mask);
    (0..8u32).any(|p| {
        codec::has_bit(mask, p)
            && codec::has_bit(other, p)
            && e.clock[p as usize] == f.clock[p as usize]
    })
}
