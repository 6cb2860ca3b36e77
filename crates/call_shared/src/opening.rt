// Open of a watch that shares.

ghost use Rattle.std.specs.Prelude.{◌≡◌};
ghost use Rattle.frontiers.specs.Width.{Width};
ghost use Rattle.answers.specs.Answer.{reply_word};
ghost use Rattle.call_shared.specs.Shared.{shared_open};

use crate::lent::{settle_pool, shared_refusal};
use call_open::open_fault;
use frontiers::width::CountWidth;

// Opens watch number `number` with a rule's text: the reply, and the bytes of the three buffers after it.
// By hand, as promised: docs/PROOF-MAP.md names this function, so it asks for a number as before.
pub fn open(
    w: usize,
    rule: &[u8],
    k: u64,
    labels: [u8; 8],
    record: &mut [u8],
    window: &mut [u8],
    pool: &mut [u8],
    number: u64,
) -> u64
    requires { Width w }
    ensures reply { result ≡ reply_word (shared_open w rule.now k labels
        «record».old window.old pool.old number).call.answer }
    ensures bytes { «record».new ≡ (shared_open w rule.now k labels
        «record».old window.old pool.old number).call.bytes }
    ensures window { window.new ≡ (shared_open w rule.now k labels
        «record».old window.old pool.old number).call.window }
    ensures pool { pool.new ≡ (shared_open w rule.now k labels
        «record».old window.old pool.old number).pool }
{
    let plain = open_fault(CountWidth::of(w), k, labels, record.len(), window.len());
    if let Err(refusal) = shared_refusal(plain, pool, number) {
        return refusal.into();
    }
    // A pool of another length was turned back just now.
    let pool = pool.as_mut_array().unwrap();
    let reply = call_open::open(w, rule, k, labels, record, window);
    settle_pool(pool, number as usize, record, reply);
    reply
}
