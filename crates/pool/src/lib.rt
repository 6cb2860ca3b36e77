// The pool of up to eight watches that share 1,024 frontiers (02 [10]): eight shares, then how many frontiers each
// watch keeps, two bytes each.

#![tactic(auto)]

ghost use Rattle.std.specs.Prelude.{◌+◌, ◌*◌, ◌≤◌, ◌<◌, ◌≡◌};
ghost use Rattle.codec.specs.Little.{number};
ghost use Rattle.numbers.specs.Limit.{most_members};
ghost use Rattle.pool.specs.Pool.{sum_below, share_at, brought_up, no_share, used_by_others};
ghost use Rattle.pool.specs.PoolCode.{used_by};
ghost use Rattle.pool.specs.Pool as pools;

use numbers::limit::{FRONTIERS, MEMBERS};

// The bytes of a pool. One of another length is refused with 6 before it gets this type.
// By hand, as no plainer: a watch's number has no type of its own. `no_share` lets only those below eight pass, and such
// a type would have to be handed out by the fault of each shared call.
pub type Pool = [u8; 32];

// Number n of the sixteen: the shares, then how many frontiers each watch keeps.
fn number_at(pool: &Pool, n: usize) -> usize
    requires { n < 2 * most_members }
    ensures { (result ≡ number pool.now (2 * n) 2) × (result < 65536) }
{
    usize::from(codec::read_u16(pool, 2 * n))
}

// 34: a number without a share. Its whole word counts.
pub fn no_share(pool: &Pool, number: u64) -> bool
    ensures { result ≡ no_share pool.now number }
{
    number >= MEMBERS as u64 || number_at(pool, number as usize) == 0
}

// What watch j holds against watch i: its share, or what it keeps if that is more. Of watch i itself the share alone
// counts.
fn held_by(pool: &Pool, i: usize, j: usize) -> usize
    requires { j < most_members }
    ensures { (result ≡ share_at pool.now j + used_by pool.now i j) × (result < 65536) }
{
    let share = number_at(pool, j);
    if j == i {
        return share;
    }
    share.max(number_at(pool, MEMBERS + j))
}

// What all watches hold against watch i: the promised frontiers, and those that others are using beyond their shares.
fn held(pool: &Pool, i: usize) -> usize
    ensures { result ≡ sum_below most_members (share_at pool.now) + used_by_others pool.now i }
{
    let mut sum = 0;
    for j in 0..MEMBERS {
        sum += held_by(pool, i, j);
    }
    sum
}

// How many frontiers watch i may keep: its share, and what nothing holds against it.
pub fn allowance(pool: &Pool, i: usize) -> usize
    requires { i < most_members }
    ensures { (result ≡ pools.allowance pool.now i) × (result ≤ 66560) }
{
    number_at(pool, i) + FRONTIERS.saturating_sub(held(pool, i))
}

// Watch i's kept number is brought up to date.
pub fn bring_up(pool: &mut Pool, i: usize, kept: u16)
    requires { i < most_members }
    ensures { pool.new ≡ brought_up pool.old i kept }
{
    codec::write_u16(pool, 16 + 2 * i, kept);
}
