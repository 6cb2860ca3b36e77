// When an event may be taken, and where it leads (01, Clocks and cuts: ready, enabled).

ghost use Rattle.std.specs.Prelude.{◌+◌, ◌-◌, ◌≡◌, cond, T, eqb};
ghost use Rattle.clocks.specs.Event.{one};
ghost use Rattle.clocks.specs.Event as event;
ghost use Rattle.clocks.specs.Tested as tested;
ghost use Rattle.clocks.specs.Counts.{at, list_of};

use crate::Event;
use std::array;

// Whether n is c plus 1, where c may be the largest count.
pub fn is_next(n: u32, c: u32) -> bool
    ensures { result ≡ eqb n (c + 1) }
{
    n > c && n - c == 1
}

// What one process asks of an event with count n there, at a cut with count c there.
fn ready_at(involved: bool, n: u32, c: u32) -> bool
    ensures { result ≡ tested.ready_at involved n c }
{
    if involved { is_next(n, c) } else { n <= c }
}

// Whether the event may be taken next at a cut: ready with the taken counts, enabled with a cut's.
pub fn ready(e: Event, counts: [u32; 8]) -> bool
    ensures { result ≡ tested.ready 8 e (at counts) }
{
    let mask = u64::from(e.mask);
    (0..8).all(|p: u32| {
        let i = p as usize;
        ready_at(codec::has_bit(mask, p), e.clock[i], counts[i])
    })
}

// Where a ready event leads from a cut: its own count at each process that takes part.
pub fn apply(e: Event, counts: [u32; 8]) -> [u32; 8]
    requires { T (tested.ready 8 e (at counts)) }
    ensures { result ≡ list_of 8 (event.apply e (at counts)) }
{
    let mask = u64::from(e.mask);
    array::from_fn(|p| {
        if codec::has_bit(mask, p as u32) {
            e.clock[p]
        } else {
            counts[p]
        }
    })
}

// The cut less an event of which only the mask is known: one less at a process that takes part, and never below 0.
pub fn minus(mask: u8, counts: [u32; 8]) -> [u32; 8]
    ensures { result ≡ list_of 8 (event.minus mask (at counts)) }
{
    let word = u64::from(mask);
    array::from_fn(|p| counts[p].saturating_sub(u32::from(codec::has_bit(word, p as u32))))
}

// What the event knows of: its clock before the event itself.
pub fn lowered(e: Event) -> [u32; 8]
    ensures { result ≡ list_of 8 (event.lowered e) }
{
    minus(e.mask, e.clock)
}
