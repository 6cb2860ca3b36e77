// What an event or start labels are turned back for (01, Turned back, from the input: 7, 8, 9).

ghost use Rattle.std.specs.Prelude.{◌≤◌, ◌≡◌, not, ◌&&◌, ◌||◌, eqb};
ghost use Rattle.numbers.specs.RefusalNumber.{refused};
ghost use Rattle.clocks.specs.Refusal.{bad_mask, bad_clock, bad_labels, bad_start};
ghost use Rattle.clocks.specs.RefusalCode.{event_fault};

use numbers::refusal::Refusal;

// 7: the mask is 0, or has a bit from k up.
pub fn bad_mask(k: u32, mask: u64) -> bool
    requires { k ≤ 8 }
    ensures { result ≡ bad_mask k mask }
{
    mask == 0 || mask >> k != 0
}

// What 8 asks of one process: count 0 where it takes part, or not 0 where it is none of the k.
fn bad_count(count: u32, involved: bool, beyond: bool) -> bool
    ensures { result ≡ ((involved && eqb count 0) || (beyond && not (eqb count 0))) }
{
    if count == 0 { involved } else { beyond }
}

// 8: count 0 at a process that takes part, or not 0 from process k up.
pub fn bad_clock(k: u32, mask: u64, clock: [u32; 8]) -> bool
    ensures { result ≡ bad_clock k mask clock }
{
    (0..8).any(|p: u32| bad_count(clock[p as usize], codec::has_bit(mask, p), k <= p))
}

// A label byte not 0 where there should be none.
fn stray(outside: bool, label: u8) -> bool
    ensures { result ≡ (outside && not (eqb label 0)) }
{
    outside && label != 0
}

// 9, of an event: a label byte not 0 at a process that does not take part.
// By hand, as no plainer: this and the next are two conditions of 01, each a line over `stray`.
pub fn bad_labels(mask: u64, labels: [u8; 8]) -> bool
    ensures { result ≡ bad_labels mask labels }
{
    (0..8).any(|p: u32| stray(!codec::has_bit(mask, p), labels[p as usize]))
}

// 9, at open: a label byte not 0 from process k up.
pub fn bad_start(k: u32, labels: [u8; 8]) -> bool
    ensures { result ≡ bad_start k labels }
{
    (0..8).any(|p: u32| stray(k <= p, labels[p as usize]))
}

// What an event is turned back for, in their order.
pub fn event_fault(k: u32, mask: u64, clock: [u32; 8], labels: [u8; 8]) -> Result<(), Refusal>
    requires { k ≤ 8 }
    ensures { refused result ≡ event_fault k mask clock labels }
{
    if bad_mask(k, mask) {
        return Err(Refusal::Mask);
    }
    if bad_clock(k, mask, clock) {
        return Err(Refusal::Clock);
    }
    if bad_labels(mask, labels) {
        return Err(Refusal::Labels);
    }
    Ok(())
}
