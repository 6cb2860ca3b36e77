// Setting the shares of a pool (02 [10]).

#![tactic(auto)]

ghost use Rattle.std.specs.Prelude.{◌≤◌, ◌≡◌, length};
ghost use Rattle.numbers.specs.Limit.{most_members};
ghost use Rattle.answers.specs.Result.{result_word};
ghost use Rattle.call_shares.specs.Shares.{bad_shares, pool_of, set_shares};

use codec::write_u16;
use frontiers::moving::clear_all;
use numbers::limit::{FRONTIERS, MEMBERS};
use numbers::refusal::Refusal;
use pool::Pool;

// 49: no share, over eight, a share of 0, or shares that add up to more than 1,024. Eight are few enough for the sum to
// fit.
fn bad_shares(shares: &[u16]) -> bool
    ensures { result ≡ bad_shares shares.now }
{
    if shares.is_empty() || MEMBERS < shares.len() || shares.contains(&0) {
        return true;
    }
    let sum: usize = shares.iter().map(|&share| usize::from(share)).sum();
    FRONTIERS < sum
}

// Writes the pool: the shares, and 0 in all other places.
fn put_shares(shares: &[u16], pool: &mut Pool)
    requires { length shares.now ≤ most_members }
    ensures { pool.new ≡ pool_of shares.now }
{
    clear_all(pool);
    for (i, &share) in shares.iter().enumerate() {
        write_u16(pool, 2 * i, share);
    }
}

// Sets the shares: the reply, and the pool's bytes. Nothing is written before all is judged.
pub fn set_shares(shares: &[u16], pool: &mut [u8]) -> u64
    ensures reply { result ≡ result_word (set_shares shares.now pool.old).answer }
    ensures pool { pool.new ≡ (set_shares shares.now pool.old).pool }
{
    let Some(pool) = pool.as_mut_array() else {
        return Refusal::Length.into();
    };
    if bad_shares(shares) {
        return Refusal::Shares.into();
    }
    put_shares(shares, pool);
    0
}
