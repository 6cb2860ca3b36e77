// The record moved, part by part.

ghost use Rattle.std.specs.Prelude.{◌+◌, ◌≤◌, ◌≡◌, false, length, drop};
ghost use Rattle.std.proofs.lemmas.List.Edits.{sets};
ghost use Rattle.records.specs.Record.{record_length, event_length};
ghost use Rattle.call_move.specs.Parts.{event_parts, record_parts};
ghost use Rattle.call_move.specs.Move.{moved, some_too_large};
ghost use Rattle.call_move.specs.MoveCode.{front_parts};

use crate::bytes::copy_eights;
use crate::counts::{any_too_large, move_counts};
use frontiers::width::CountWidth;
use numbers::limit::PENDING;
use records::fields::{pending_place, table_place};

// 43, of the record: the taken counts and the last clocks, and the clocks of all 32 places for pending events.
#[inline(always)]
pub fn record_too_large(record: &[u8], v: CountWidth, w: CountWidth) -> bool
    requires record_len { length «record».now ≡ record_length v }
    ensures { result ≡ some_too_large v w record_parts «record».now }
{
    let mut some = any_too_large(record, 8, v, 1, w)
        | any_too_large(record, 8 + 8 * v.bytes(), v, 8, w);
    for i in 0..PENDING {
        some |= any_too_large(record, pending_place(v, i) + 8, v, 1, w);
    }
    some
}

// Writes what stands before the pending events: the first bytes, the taken counts, the last clocks, the table.
#[inline(always)]
fn move_front(record: &[u8], v: CountWidth, target: &mut [u8], w: CountWidth)
    requires record_len { length «record».now ≡ record_length v }
    requires target_len { length target.old ≡ record_length w }
    requires record_value { some_too_large v w front_parts «record».now ≡ false }
    ensures { target.new
        ≡ sets target.old 0 (moved v w front_parts «record».now) }
{
    copy_eights(record, 0, 1, target, 0);
    move_counts(record, 8, v, 1, target, 8, w);
    move_counts(
        record,
        8 + 8 * v.bytes(),
        v,
        8,
        target,
        8 + 8 * w.bytes(),
        w,
    );
    copy_eights(record, table_place(v), 24, target, table_place(w));
}

// Writes the pending event from a place on to a place of the other record.
#[inline(always)]
fn move_event(
    record: &[u8],
    from: usize,
    v: CountWidth,
    target: &mut [u8],
    to: usize,
    w: CountWidth,
)
    requires v_in_bounds { from + event_length v ≤ length «record».now }
    requires w_in_bounds { to + event_length w ≤ length target.old }
    requires record_value { some_too_large v w event_parts (drop from «record».now) ≡ false }
    ensures { target.new
        ≡ sets target.old to (moved v w event_parts (drop from «record».now)) }
{
    copy_eights(record, from, 1, target, to);
    move_counts(record, from + 8, v, 1, target, to + 8, w);
    copy_eights(
        record,
        from + 8 + 8 * v.bytes(),
        1,
        target,
        to + 8 + 8 * w.bytes(),
    );
}

// Writes a record with counts of v bytes as one with counts of w bytes.
#[inline(always)]
pub fn move_record(record: &[u8], v: CountWidth, target: &mut [u8], w: CountWidth)
    requires record_len { length «record».now ≡ record_length v }
    requires target_len { length target.old ≡ record_length w }
    requires record_value { some_too_large v w record_parts «record».now ≡ false }
    ensures { target.new ≡ moved v w record_parts «record».now }
{
    move_front(record, v, target, w);
    for next in 0..PENDING {
        move_event(
            record,
            pending_place(v, next),
            v,
            target,
            pending_place(w, next),
            w,
        );
    }
}
