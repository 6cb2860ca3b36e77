// Take of a watch that shares: no more frontiers than the lent window has room for and the pool allows.

ghost use Rattle.std.specs.Prelude.{◌≡◌};
ghost use Rattle.frontiers.specs.Width.{Width};
ghost use Rattle.answers.specs.Answer.{reply_word};
ghost use Rattle.call_shared.specs.Shared.{shared_take};

use crate::lent::{settle_pool, shared_refusal};
use call_take::{take_fault, take_within};
use frontiers::width::CountWidth;
use refusals::room_of;

// Takes an event of watch number `number`: the reply, and the bytes of the four buffers after it.
// By hand, as promised: docs/PROOF-MAP.md names this function, so it asks for a number as before.
pub fn take(
    w: usize,
    record: &mut [u8],
    window: &mut [u8],
    scratch: &mut [u8],
    pool: &mut [u8],
    number: u64,
) -> u64
    requires { Width w }
    ensures reply { result ≡ reply_word (shared_take w «record».old window.old
        scratch.old pool.old number).call.answer }
    ensures bytes { «record».new ≡ (shared_take w «record».old window.old
        scratch.old pool.old number).call.bytes }
    ensures window { window.new ≡ (shared_take w «record».old window.old
        scratch.old pool.old number).call.window }
    ensures scratch { scratch.new ≡ (shared_take w «record».old window.old
        scratch.old pool.old number).call.scratch }
    ensures pool { pool.new ≡ (shared_take w «record».old window.old
        scratch.old pool.old number).pool }
{
    let width = CountWidth::of(w);
    let plain = take_fault(width, record, window.len(), scratch.len());
    if let Err(refusal) = shared_refusal(plain, pool, number) {
        return refusal.into();
    }
    // A pool of another length was turned back just now.
    let pool = pool.as_mut_array().unwrap();
    let i = number as usize;
    let allowed = pool::allowance(pool, i).min(room_of(width, window.len()));
    let reply = take_within(w, allowed, record, window, scratch);
    settle_pool(pool, i, record, reply);
    reply
}
