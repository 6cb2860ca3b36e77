// The pool that a call is lent: what it refuses, and the watch's number of frontiers kept in it after the call.

ghost use Rattle.std.specs.Prelude.{◌%◌, ◌≤◌, ◌<◌, ◌≡◌, length};
ghost use Rattle.numbers.specs.Limit.{most_members};
ghost use Rattle.numbers.specs.RefusalNumber.{refused};
ghost use Rattle.records.specs.Record.{kept_count};
ghost use Rattle.call_shared.specs.SharedCode.{shared_fault, pool_by};

use numbers::refusal::Refusal;
use pool::Pool;
use records::fields::kept_count;

// What a shared call is turned back for, by what the plain call is. Only the plain 6 is told before what the pool
// refuses.
pub fn shared_refusal(plain: Result<(), Refusal>, pool: &[u8], number: u64) -> Result<(), Refusal>
    ensures { refused result ≡ shared_fault (refused plain) pool.now number }
{
    if plain == Err(Refusal::Length) {
        return plain;
    }
    let Some(pool) = pool.as_array() else {
        return Err(Refusal::Length);
    };
    if pool::no_share(pool, number) {
        return Err(Refusal::State);
    }
    plain
}

// The number that a shared call is turned back with, by that of the plain call; 0 for none.
// By hand, as promised: it answers for every number, also one that no `Refusal` has.
pub fn shared_fault(plain: u64, pool: &[u8], number: u64) -> u64
    ensures { result ≡ shared_fault plain pool.now number }
{
    if plain == u64::from(Refusal::Length) {
        return plain;
    }
    match shared_refusal(Ok(()), pool, number) {
        Ok(()) => plain,
        Err(refusal) => refusal.into(),
    }
}

// The pool after a call of watch i with this reply: a refusal leaves it as it was, else the record says what is kept.
pub fn settle_pool(pool: &mut Pool, i: usize, record: &[u8], reply: u64)
    requires i_lt_most_members { i < most_members }
    requires in_bounds { 8 ≤ length «record».now }
    requires record_bound { reply % 256 ≡ 0 → kept_count «record».now < 65536 }
    ensures { pool.new ≡ pool_by pool.old i reply «record».now }
{
    // By hand, for C: the plain calls answer the word that C reads, and its low byte is the refusal's number.
    if reply % 256 != 0 {
        return;
    }
    pool::bring_up(pool, i, kept_count(record) as u16);
}
