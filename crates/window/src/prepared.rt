// Tests of a frontier's counts without a branch for each process, by what a counting pass makes once.

ghost use Rattle.std.specs.Prelude.{◌≡◌, ℕ, ◌<◌, ◌≤◌, Bool, true, false, not, ◌&&◌, ◌==◌, nat_lt};
ghost use Rattle.codec.specs.Bit.{bit};
ghost use Rattle.clocks.specs.Counts.{at};
ghost use Rattle.clocks.specs.Event.{one};
ghost use Rattle.clocks.specs.Tested.{ready_at, ready};
ghost use Rattle.clocks.specs.declared.Event as event;
ghost use Rattle.window.specs.StepCode.{complete, stays_with};
ghost use Rattle.window.specs.Prepared.{lowest, span_of, bound, bound_counts, Counted, open_ones};

use clocks::Event;
use std::array;

// 1 for a process that takes part, 0 for another.
// By hand, for speed: as a number, so that the bounds of eight processes are made by the same arithmetic. With bounds
// made of truths the compiler stopped testing eight counts at once when the code around them changed.
fn part(mask: u64, p: u32) -> u32
    requires { p < 64 }
    ensures { result ≡ one (bit mask p) }
{
    ((mask >> p) % 2) as u32
}

// The lowest counts at which the event is enabled.
pub fn lowest_counts(e: Event) -> [u32; 8]
    ensures { result ≡ bound_counts false e }
{
    let mask = u64::from(e.mask);
    array::from_fn(|p| e.clock[p].saturating_sub(part(mask, p as u32)))
}

// How far above the lowest a count may lie: up to the largest, or not at all where the process takes part.
fn span_of(part: u32, n: u32) -> u32
    ensures { result ≡ span_of part n }
{
    if part == 0 { u32::MAX - n } else { 0 }
}

// The spans of the counts at which the event is enabled.
pub fn spans(e: Event) -> [u32; 8]
    ensures { result ≡ bound_counts true e }
{
    let mask = u64::from(e.mask);
    array::from_fn(|p| span_of(part(mask, p as u32), e.clock[p]))
}

// Whether the event may be taken at a count of a process. What is below the lowest wraps to what no span reaches: so
// one comparison does, where two kept the compiler from testing eight counts of four bytes at once.
fn between(low: u32, span: u32, c: u32) -> bool
    ensures { (involved : Bool) (n : ℕ) → (involved ≡ true → 0 < n) → low ≡ lowest (one involved) n
        → span ≡ span_of (one involved) n → result ≡ ready_at involved n c }
{
    c.wrapping_sub(low) <= span
}

// Whether the event is enabled at the counts, by its lowest and their spans.
// By hand, for speed: eight counts are tested at once, where `all` tests the first alone and branches.
pub fn within(low: [u32; 8], span: [u32; 8], counts: [u32; 8]) -> bool
    ensures { (e : event.Event) → Counted e → low ≡ bound_counts false e → span ≡ bound_counts true e
        → result ≡ ready 8 e (at counts) }
{
    let mut all = true;
    for p in 0..8 {
        all &= between(low[p], span[p], counts[p]);
    }
    all
}

// The open ones of k processes. By hand, for speed: with `&&` the compiler branches for each of the eight.
pub fn open_ones(k: u32, closed: u64) -> [bool; 8]
    ensures { result ≡ open_ones k closed }
{
    array::from_fn(|p| ((p as u32) < k) & !codec::has_bit(closed, p as u32))
}

// Whether some open process has all its taken events in the counts.
// By hand, for speed: eight counts are tested at once, as in `within`.
fn some_complete(opens: [bool; 8], reached: [u32; 8], counts: [u32; 8]) -> bool
    ensures { (k closed : ℕ) → k ≤ 8 → opens ≡ open_ones k closed → result ≡ complete k closed reached counts }
{
    let mut some = false;
    for p in 0..8 {
        some |= opens[p] & (counts[p] == reached[p]);
    }
    some
}

// Whether a frontier with these counts stays.
pub fn stays(opens: [bool; 8], reached: [u32; 8], counts: [u32; 8]) -> bool
    ensures { (k closed : ℕ) → k ≤ 8 → opens ≡ open_ones k closed → result ≡ stays_with k closed reached counts }
{
    some_complete(opens, reached, counts) || lookup::order::counts_same(counts, reached)
}
