// Close (02 [5]): a process that will send no more is closed, and the frontiers that then need not stay leave the
// window.

#![tactic(auto)]

pub mod refused;
pub mod staying;

ghost use Rattle.std.specs.Prelude.{◌≤◌, ◌<◌, ◌≡◌, length};
ghost use Rattle.frontiers.specs.Width.{Width};
ghost use Rattle.window.specs.Room.{RoomFor};
ghost use Rattle.records.specs.Record.{record_length, process_count, kept_count, closed_set};
ghost use Rattle.answers.specs.Answer.{reply_word};
ghost use Rattle.call_close.specs.Close.{closing, close_process, close_call};

use crate::refused::close_fault;
use crate::staying::drop_others;
use frontiers::width::CountWidth;
use records::fields::{closed_mask, kept_count, process_count, taken_counts};

// The mask of the closed processes with process p.
fn with_process(closed: u64, p: u32) -> u64
    requires closed_bound { closed < 256 }
    requires p_bound { p < 8 }
    ensures { (result ≡ closing closed p) × (result < 256) }
{
    closed | (1 << p)
}

// Stores the mask of the closed processes and the number of frontiers kept.
fn set_closed(record: &mut [u8], closed: u64, kept: u32)
    requires in_bounds { 8 ≤ length «record».old }
    requires closed_bound { closed < 256 }
    ensures { «record».new ≡ closed_set «record».old closed kept }
{
    record[3] = closed as u8;
    codec::write_u32(record, 4, kept);
}

// Closes process p: the reply, and the bytes of both buffers after it.
#[inline(always)]
fn close_process(w: CountWidth, p: u32, record: &mut [u8], window: &mut [u8]) -> u64
    requires p_bound { p < 8 }
    requires record_len { length «record».old ≡ record_length w }
    requires record_bound { process_count «record».old ≤ 8 }
    requires room_for { RoomFor w (kept_count «record».old) window.old }
    ensures reply { result ≡ reply_word (close_process w p «record».old window.old).answer }
    ensures bytes { «record».new
        ≡ (close_process w p «record».old window.old).bytes }
    ensures window { window.new
        ≡ (close_process w p «record».old window.old).window }
{
    let n = kept_count(record) as usize;
    let k = process_count(record);
    let reached = taken_counts(record, w);
    let before = u64::from(closed_mask(record));
    let closed = with_process(before, p);
    let kept = drop_others(window, w, n, k, closed, reached);
    set_closed(record, closed, kept as u32);
    65536 * (kept as u64)
}

// Closes a process: the reply, and the bytes of both buffers after it.
// By hand, as promised: docs/PROOF-MAP.md names this function, so it asks for a number as before.
pub fn close(w: usize, process: u64, record: &mut [u8], window: &mut [u8]) -> u64
    requires { Width w }
    ensures reply { result ≡ reply_word (close_call w process «record».old window.old).answer }
    ensures bytes { «record».new
        ≡ (close_call w process «record».old window.old).bytes }
    ensures window { window.new
        ≡ (close_call w process «record».old window.old).window }
{
    let width = CountWidth::of(w);
    match close_fault(w, process, record, window.len()) {
        Err(refusal) => refusal.into(),
        Ok(()) => close_process(width, process as u32, record, window),
    }
}
