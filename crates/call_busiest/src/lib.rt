// The busiest day (02 [8]): n events of single processes, shared evenly, and how many frontiers they keep.

#![tactic(auto)]

ghost use Rattle.std.specs.Prelude.{◌+◌, ◌*◌, ◌/◌, ◌%◌, ◌^◌, ◌≤◌, ◌<◌, ◌≡◌, length, MatchOption, IfOk};
ghost use Rattle.std.proofs.lemmas.List.Edits.{sets};
ghost use Rattle.frontiers.specs.Width.{Width};
ghost use Rattle.records.specs.Record.{event_length, event_bytes, events_bytes};
ghost use Rattle.answers.specs.Result.{result_word};
ghost use Rattle.call_busiest.specs.Sharing.{evenly, total, sharing_keeps};
ghost use Rattle.call_busiest.specs.Busiest.{single, singles, day, busiest_call};
ghost use Rattle.call_busiest.specs.BusiestCode.{sharing, Blank, answer_of};

use frontiers::counts::write_count;
use frontiers::moving::clear_all;
use frontiers::width::CountWidth;
use numbers::limit::{DAY_EVENTS, FRONTIERS};
use numbers::refusal::Refusal;
use records::fields::event_length;
use refusals::bad_processes;

// Events shared evenly among so many processes: each has so many, and the first ones, so many of them, one more.
#[derive(Clone, Copy)]
struct EvenShares {
    processes: usize,
    each: usize,
    more: usize,
    ghost small: { each ≤ 65535 },
}

impl EvenShares {
    // Of n events among k processes.
    fn new(n: u64, k: u64) -> EvenShares
        requires k_bound { 1 ≤ k }
        requires n_bound { n ≤ 65535 }
        ensures processes { result.processes ≡ k }
        ensures each { result.each ≡ n / k }
        ensures more { result.more ≡ n % k }
    {
        EvenShares {
            processes: k as usize,
            each: (n / k) as usize,
            more: (n % k) as usize,
        }
    }

    // What process p has.
    fn of(self, p: usize) -> usize
        ensures { (result ≡ evenly self.each self.more p) × (result ≤ 65536) }
    {
        self.each + usize::from(p < self.more)
    }

    // The frontiers that the processes keep; none where a window has no room for them. It ends as soon as those of a
    // window are passed, so that no product grows beyond 2^27.
    fn kept(self) -> Option<usize>
        ensures { MatchOption result (1024 < sharing_keeps (sharing self.processes self.each self.more))
            (λ kept. (kept ≡ sharing_keeps (sharing self.processes self.each self.more)) × (kept ≤ 1024)) }
    {
        let mut kept = 0;
        let mut product = 1;
        for p in 0..self.processes {
            let count = self.of(p);
            kept = kept * (count + 1) + product;
            if kept > FRONTIERS {
                return None;
            }
            product *= count;
        }
        Some(kept)
    }
}

// Lays process p's event of this number down where all is 0.
#[inline(always)]
fn put_single(events: &mut [u8], w: CountWidth, place: usize, p: usize, mask: u8, number: u32)
    requires p_bound { p < 8 }
    requires mask_value { mask ≡ 2 ^ p }
    requires number_bound { number < 65536 }
    requires w_in_bounds { place + event_length w ≤ length events.old }
    requires blank { Blank events.old place }
    ensures { events.new ≡ sets events.old place (event_bytes w (single p number)) }
{
    events[place] = mask;
    write_count(events, place + 8 + p * w.bytes(), w, number);
}

// Lays the first n events of process p down where all is 0.
#[inline(always)]
fn put_singles(events: &mut [u8], w: CountWidth, place: usize, p: usize, n: usize)
    requires p_bound { p < 8 }
    requires n_bound { n < 65536 }
    requires w_in_bounds { place + n * event_length w ≤ length events.old }
    requires blank { Blank events.old place }
    ensures { events.new ≡ sets events.old place (events_bytes w (singles p n)) }
{
    let size = event_length(w);
    let mask = 1u8 << p;
    // By hand, for speed: with place + i * size eleven events of eight processes take 44 ns and not 37.
    let mut at = place;
    for i in 0..n {
        put_single(events, w, at, p, mask, i as u32 + 1);
        at += size;
    }
}

// Writes the events that are shared, process by process.
#[inline(always)]
fn put_day(events: &mut [u8], w: CountWidth, shares: EvenShares)
    requires processes_bound { shares.processes ≤ 8 }
    requires total_bound { total (sharing shares.processes shares.each shares.more) ≤ 65535 }
    requires events_len { length events.old
        ≡ total (sharing shares.processes shares.each shares.more) * event_length w }
    ensures { events.new ≡ events_bytes w (day (evenly shares.each shares.more) shares.processes) }
{
    clear_all(events);
    let size = event_length(w);
    let mut place = 0;
    for p in 0..shares.processes {
        let count = shares.of(p);
        put_singles(events, w, place, p, count);
        place += count * size;
    }
}

// Writes the list of a busiest day, and answers how many frontiers it keeps. Nothing is written before all is judged.
#[inline(always)]
fn write_day(w: CountWidth, k: u64, n: u64, events: &mut [u8]) -> Result<usize, Refusal>
    ensures answer { answer_of result ≡ (busiest_call w k n events.old).answer }
    ensures kept { IfOk result (λ kept. kept ≤ 1024) }
    ensures events { events.new ≡ (busiest_call w k n events.old).events }
{
    if bad_processes(k) || n > DAY_EVENTS {
        return Err(Refusal::Day);
    }
    let shares = EvenShares::new(n, k);
    let kept = shares.kept().ok_or(Refusal::Busy)?;
    if events.len() != (n as usize) * event_length(w) {
        return Err(Refusal::Length);
    }
    put_day(events, w, shares);
    Ok(kept)
}

// The same, with its answer as a reply word.
// By hand, as promised: docs/PROOF-MAP.md names this function, so it asks for a number as before.
pub fn busiest(w: usize, k: u64, n: u64, events: &mut [u8]) -> u64
    requires { Width w }
    ensures reply { result ≡ result_word (busiest_call w k n events.old).answer }
    ensures events { events.new ≡ (busiest_call w k n events.old).events }
{
    match write_day(CountWidth::of(w), k, n, events) {
        Ok(kept) => 65536 * (kept as u64),
        Err(refusal) => u64::from(refusal),
    }
}
