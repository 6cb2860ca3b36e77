// The frontier that an event leads to, not judged yet.

ghost use Rattle.std.specs.Prelude.{ℕ, ◌≡◌, Bool, cond, T, get_or};
ghost use Rattle.codec.specs.Bit.{bit};
ghost use Rattle.clocks.specs.Counts.{at, list_of};
ghost use Rattle.clocks.specs.Tested.{ready};
ghost use Rattle.window.specs.Step.{Setting, advanced as advancedBy};
ghost use Rattle.window_step.specs.FullBytes.{full_byte, full_bytes};

use clocks::Event;
use frontiers::Frontier;
use std::array;

// The first of two bytes where the chooser is full, the second where it is empty.
fn chosen(full: u8, a: u8, b: u8) -> u8
    ensures { (first : Bool) → full ≡ full_byte first → result ≡ cond first a b }
{
    (a & full) | (b & (255 ^ full))
}

// A full byte for yes, an empty one for no.
fn full_byte(t: bool) -> u8
    ensures { result ≡ full_byte t }
{
    if t { 255 } else { 0 }
}

// Full bytes at the processes in a mask, empty ones at the others: a step makes them once, to choose by at each new
// frontier.
pub fn full_bytes(mask: u8) -> [u8; 8]
    ensures { result ≡ full_bytes mask }
{
    let word = u64::from(mask);
    array::from_fn(|p| full_byte(codec::has_bit(word, p as u32)))
}

// New bytes at the processes in a mask, the old ones at the others: the mask by its full bytes.
fn renewed(full: [u8; 8], news: [u8; 8], olds: [u8; 8]) -> [u8; 8]
    ensures { (mask : ℕ) → full ≡ full_bytes mask → result ≡ list_of 8 (λ p. cond (bit mask p) (get_or news p 0) (get_or olds p 0)) }
{
    array::from_fn(|p| chosen(full[p], news[p], olds[p]))
}

// The frontier that the event leads to: it has the values of the one that it came from.
pub fn advanced(e: Event, full: [u8; 8], f: Frontier) -> Frontier
    requires full_value { full ≡ full_bytes e.mask }
    requires t { T (ready 8 e (at f.counts)) }
    ensures { (s : Setting) → s.stored ≡ 8 → s.event ≡ e → result ≡ advancedBy s f }
{
    Frontier {
        counts: clocks::step::apply(e, f.counts),
        labels: renewed(full, e.labels, f.labels),
        masks: renewed(full, [e.mask; 8], f.masks),
        values: f.values,
    }
}
