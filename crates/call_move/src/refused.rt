// What a move is turned back for (02 [6]: 6, 34, 43).

ghost use Rattle.std.specs.Prelude.{◌≡◌};
ghost use Rattle.numbers.specs.RefusalNumber.{refused};
ghost use Rattle.call_move.specs.Move.{bad_move_lengths};
ghost use Rattle.call_move.specs.MoveCode.{move_fault};

use crate::record_parts::record_too_large;
use crate::window_parts::window_too_large;
use frontiers::width::CountWidth;
use numbers::refusal::Refusal;
use refusals::{bad_record_length, bad_state, bad_window_length, room_of};

// 6: a wrong length, or windows not of as many frontiers.
#[inline(always)]
fn bad_lengths(
    v: CountWidth,
    w: CountWidth,
    record_len: usize,
    window_len: usize,
    target_len: usize,
    target_window_len: usize,
) -> bool
    ensures { result ≡ bad_move_lengths v w record_len window_len target_len target_window_len }
{
    bad_record_length(v, record_len)
        || bad_window_length(v, window_len)
        || bad_record_length(w, target_len)
        || bad_window_length(w, target_window_len)
        || room_of(v, window_len) != room_of(w, target_window_len)
}

// What a move is turned back for.
#[inline(always)]
pub fn move_fault(
    v: CountWidth,
    w: CountWidth,
    record: &[u8],
    window: &[u8],
    target_len: usize,
    target_window_len: usize,
) -> Result<(), Refusal>
    ensures { refused result
        ≡ move_fault v w «record».now window.now target_len target_window_len }
{
    if bad_lengths(
        v,
        w,
        record.len(),
        window.len(),
        target_len,
        target_window_len,
    ) {
        return Err(Refusal::Length);
    }
    let n = room_of(v, window.len());
    if bad_state(record, v, n) {
        return Err(Refusal::State);
    }
    if w.bytes() < v.bytes()
        && (record_too_large(record, v, w) || window_too_large(window, n, v, w))
    {
        return Err(Refusal::TooLarge);
    }
    Ok(())
}
