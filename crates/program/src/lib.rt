// The program without its input and output: lines out of bytes, and what it answers to each line.

#![tactic(auto)]

// Lines out of the bytes that were read.
pub mod split;
// What each line is answered with.
pub mod stages;
// A line with its takes.
pub mod turn;

ghost use Rattle.std.specs.Prelude.{◌≡◌, ◌≤◌, ltb};

use replies::{Reply, Stage};

// What was found in some bytes: how many of them are used, how many bytes the line has now, and whether it ends there.
// By hand, as no plainer: both numbers count whether it ends or not, so `feed` stands for no missing value.
#[derive(Clone, Copy)]
pub struct Scan {
    pub used: usize,
    pub kept: usize,
    pub feed: bool,
}

// Where the program stands after a line: the stage of the next line, the processes, the room in frontiers, the length
// of the rule's text, and the reply to the line.
// By hand, as no plainer: the rule's buffer is lent beside `text`, as each other buffer is lent; what a line leaves
// (`Stands`) is said of the session and of each buffer.
#[derive(Clone, Copy)]
pub struct Session {
    pub stage: Stage,
    pub k: u64,
    pub room: usize,
    pub text: usize,
    pub reply: Reply,
    ghost processes: { k ≤ 8 },
    ghost frontiers: { room ≤ 1024 },
}

impl Session {
    ghost use Rattle.replies.specs.Following.{stage_number, over_stage};

    // Whether lines are still waited for.
    pub fn goes_on(&self) -> bool
        ensures { result ≡ ltb (stage_number self.now.stage) over_stage }
    {
        match self.stage {
            Stage::Watch | Stage::Rule | Stage::Start | Stage::Event => true,
            Stage::Over => false,
            Stage::Past(_) => false,
        }
    }
}

// Texts laid so far: the place after them, and whether a take is to follow.
// By hand, as no plainer: the place counts whether a take follows or not.
#[derive(Clone, Copy)]
pub struct Laid {
    pub end: usize,
    pub follows: bool,
}

// A line answered with its takes: where the program stands then, and the length of the answers' text.
#[derive(Clone, Copy)]
pub struct Response {
    pub session: Session,
    pub length: usize,
}
