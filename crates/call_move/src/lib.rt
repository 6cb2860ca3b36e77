// Move (02 [6]): a watch with counts of two bytes is written as one with counts of four, or the other way.

#![tactic(auto)]

pub mod bytes;
pub mod counts;
pub mod record_parts;
pub mod refused;
pub mod window_parts;

ghost use Rattle.std.specs.Prelude.{◌≡◌};
ghost use Rattle.frontiers.specs.Width.{Width};
ghost use Rattle.call_move.specs.Move.{move_call};

use crate::record_parts::move_record;
use crate::refused::move_fault;
use crate::window_parts::move_window;
use frontiers::width::CountWidth;
use refusals::room_of;

// Moves a watch: the reply, and the bytes of the buffers that are written. It has seen every count before it writes.
// By hand, as promised: docs/PROOF-MAP.md names this function, so it asks for numbers as before.
pub fn move_watch(
    v: usize,
    w: usize,
    record: &[u8],
    window: &[u8],
    target: &mut [u8],
    target_window: &mut [u8],
) -> u64
    requires width { Width v }
    requires width_2 { Width w }
    ensures reply { result ≡ (move_call v w «record».now window.now
        target.old target_window.old).number }
    ensures bytes { target.new ≡ (move_call v w «record».now window.now
        target.old target_window.old).bytes }
    ensures window { target_window.new ≡ (move_call v w «record».now window.now
        target.old target_window.old).window }
{
    let from_width = CountWidth::of(v);
    let to_width = CountWidth::of(w);
    if let Err(refusal) = move_fault(
        from_width,
        to_width,
        record,
        window,
        target.len(),
        target_window.len(),
    ) {
        return u64::from(refusal);
    }
    move_record(record, from_width, target, to_width);
    let n = room_of(from_width, window.len());
    move_window(window, n, from_width, target_window, to_width);
    0
}
