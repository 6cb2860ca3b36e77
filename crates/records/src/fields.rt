// The record's fields, read from its bytes (01, The window: the record), for counts of two or four bytes.

ghost use Rattle.std.specs.Prelude.{◌+◌, ◌*◌, ◌≤◌, ◌<◌, ◌≡◌, length};
ghost use Rattle.records.specs.Record.{table_place, event_length, pending_place, record_length, process_count, line_total, pending_count, closed_mask, kept_count, taken_counts, pending_at};

use clocks::Event;
use frontiers::width::CountWidth;

// The number of processes.
pub fn process_count(record: &[u8]) -> u32
    requires { 8 ≤ length «record».now }
    ensures { (result ≡ process_count «record».now) × (result < 256) }
{
    u32::from(record[0])
}

// The number of the table's lines.
pub fn line_total(record: &[u8]) -> u32
    requires { 8 ≤ length «record».now }
    ensures { (result ≡ line_total «record».now) × (result < 256) }
{
    u32::from(record[1])
}

// The number of pending events.
pub fn pending_count(record: &[u8]) -> usize
    requires { 8 ≤ length «record».now }
    ensures { (result ≡ pending_count «record».now) × (result < 256) }
{
    usize::from(record[2])
}

// The closed processes, a bit for each.
pub fn closed_mask(record: &[u8]) -> u32
    requires { 8 ≤ length «record».now }
    ensures { (result ≡ closed_mask «record».now) × (result < 256) }
{
    u32::from(record[3])
}

// The number of kept frontiers.
pub fn kept_count(record: &[u8]) -> u32
    requires { 8 ≤ length «record».now }
    ensures { result ≡ kept_count «record».now }
{
    codec::read_u32(record, 4)
}

// The taken counts.
#[inline(always)]
pub fn taken_counts(record: &[u8], w: CountWidth) -> [u32; 8]
    requires w_in_bounds { 8 + 8 * w ≤ length «record».now }
    ensures { result ≡ taken_counts w «record».now }
{
    frontiers::counts::read_counts(record, 8, w)
}

// The place of the table.
#[inline(always)]
pub fn table_place(w: CountWidth) -> usize
    ensures { (result ≡ table_place w) × (result ≤ 296) }
{
    8 + 72 * w.bytes()
}

// The length of a pending event.
#[inline(always)]
pub fn event_length(w: CountWidth) -> usize
    ensures { (result ≡ event_length w) × (result ≤ 48) }
{
    8 * w.bytes() + 16
}

// The place of pending event number i.
#[inline(always)]
pub fn pending_place(w: CountWidth, i: usize) -> usize
    requires i_bound { i ≤ 32 }
    ensures { (result ≡ pending_place w i) × (result ≤ 2024) }
{
    if w.bytes() == 2 {
        344 + i * 32
    } else {
        488 + i * 48
    }
}

// Pending event number i.
#[inline(always)]
pub fn pending_event(record: &[u8], w: CountWidth, i: usize) -> Event
    requires record_len { length «record».now ≡ record_length w }
    requires i_bound { i < 32 }
    ensures { result ≡ pending_at w «record».now i }
{
    let place = pending_place(w, i);
    Event {
        mask: record[place],
        clock: frontiers::counts::read_counts(record, place + 8, w),
        labels: frontiers::stored::read_eight(record, place + 8 + 8 * w.bytes()),
    }
}
