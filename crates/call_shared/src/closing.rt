// Close of a watch that shares.

ghost use Rattle.std.specs.Prelude.{◌≡◌};
ghost use Rattle.frontiers.specs.Width.{Width};
ghost use Rattle.answers.specs.Answer.{reply_word};
ghost use Rattle.call_shared.specs.Shared.{shared_close};

use crate::lent::{settle_pool, shared_refusal};
use refusals::watch_fault;

// Closes a process of watch number `number`: the reply, and the bytes of the three buffers after it.
// By hand, as promised: docs/PROOF-MAP.md names this function, so it asks for a number as before.
pub fn close(
    w: usize,
    process: u64,
    record: &mut [u8],
    window: &mut [u8],
    pool: &mut [u8],
    number: u64,
) -> u64
    requires { Width w }
    ensures reply { result ≡ reply_word (shared_close w process «record».old window.old
        pool.old number).call.answer }
    ensures bytes { «record».new ≡ (shared_close w process «record».old window.old
        pool.old number).call.bytes }
    ensures window { window.new ≡ (shared_close w process «record».old window.old
        pool.old number).call.window }
    ensures pool { pool.new ≡ (shared_close w process «record».old window.old
        pool.old number).pool }
{
    let plain = watch_fault(w, record, window.len());
    if let Err(refusal) = shared_refusal(plain, pool, number) {
        return refusal.into();
    }
    // A pool of another length was turned back just now.
    let pool = pool.as_mut_array().unwrap();
    let reply = call_close::close(w, process, record, window);
    settle_pool(pool, number as usize, record, reply);
    reply
}
