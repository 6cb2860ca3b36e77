// What a close is turned back for (02 [5]: 41, 42; 01, Turned back: 6, 34).

ghost use Rattle.std.specs.Prelude.{◌≤◌, ◌<◌, ◌≡◌, length};
ghost use Rattle.numbers.specs.RefusalNumber.{refused};
ghost use Rattle.frontiers.specs.Width.{Width};
ghost use Rattle.records.specs.Record.{record_length, pending_count, pending_events};
ghost use Rattle.refusals.specs.Refusals.{not_open, named_by};
ghost use Rattle.call_close.specs.CloseCode.{close_fault};

use frontiers::width::CountWidth;
use numbers::refusal::Refusal;
use records::fields::{closed_mask, pending_count, pending_place, process_count};
use refusals::watch_fault;

// 41: a process that is not one of k, or is closed already. Its whole word counts: only below k is it a bit's place.
pub fn not_open(k: u32, closed: u32, process: u64) -> bool
    requires { k ≤ 8 }
    ensures { result ≡ not_open k closed process }
{
    u64::from(k) <= process || codec::has_bit(u64::from(closed), process as u32)
}

// 42: a pending event names process p. Of each event only the mask is read.
#[inline(always)]
pub fn named_by(record: &[u8], w: CountWidth, p: u32) -> bool
    requires record_len { length «record».now ≡ record_length w }
    requires record_bound { pending_count «record».now ≤ 32 }
    requires p_bound { p < 8 }
    ensures { result ≡ named_by p (pending_events w «record».now) }
{
    (0..pending_count(record)).any(|i| codec::has_bit(u64::from(record[pending_place(w, i)]), p))
}

// What a close is turned back for, in their order.
// By hand, as promised: docs/REQUEST-NOTES.md names this function, so it asks for a number as before.
pub fn close_fault(w: usize, process: u64, record: &[u8], n: usize) -> Result<(), Refusal>
    requires { Width w }
    ensures { refused result ≡ close_fault w process «record».now n }
{
    watch_fault(w, record, n)?;
    if not_open(process_count(record), closed_mask(record), process) {
        return Err(Refusal::NotOpen);
    }
    if named_by(record, CountWidth::of(w), process as u32) {
        return Err(Refusal::Named);
    }
    Ok(())
}
