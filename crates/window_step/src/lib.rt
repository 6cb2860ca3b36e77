// A window's step for an event: the frontiers after it are laid down, judged, and copied back.

#![tactic(auto)]

ghost use Rattle.std.specs.Prelude.{◌≤◌};
ghost use Rattle.window.specs.StepCode.{Fitting};

use clocks::Event;
use frontiers::width::CountWidth;

pub mod advance;
pub mod gather;
pub mod lay;
pub mod merge;
pub mod step;

// What is fixed during a step: the width of a count, how many frontiers there are and how many are kept, the processes
// and which of them are closed, the event, the taken counts with it, and the table's lines.
// Its code goes by the marks: closed and reached only say what was marked. Bytes can hold the event.
#[derive(Clone, Copy)]
pub struct Stepping {
    pub w: CountWidth,
    pub n: usize,
    pub kept: usize,
    pub k: u32,
    pub closed: u64,
    pub event: Event,
    pub reached: [u32; 8],
    pub lines: u32,
    ghost fitting: { Fitting w event },
    ghost few_processes: { k ≤ 8 },
    ghost few_lines: { lines ≤ 64 },
}

// What is gathered from the cuts that precede a new frontier: the OR and the AND of their values, and where each
// process's next look-up begins.
#[derive(Clone, Copy)]
pub struct Found {
    pub ors: u64,
    pub ands: u64,
    pub hints: [usize; 8],
}
