// Replies: an answer's parts, out of its word, and what follows from them (01, Examples: the program; 02 [1]).

#![tactic(auto)]

// What a call or a line is answered with.
pub mod reply;

ghost use Rattle.std.specs.Prelude.{◌≡◌, false};
ghost use Rattle.replies.specs.Following.{takes_again, next_stage, stage_number};
ghost use Rattle.answers.specs.Kinds.{is_held};
ghost use Rattle.replies.specs.Replies.{reply_of};
ghost use Rattle.replies.specs.Promises.{PartsPromised, FollowPromised};

pub use crate::reply::Reply;
use crate::reply::{Accepted, Refused};
use numbers::refusal::Refusal;

// Which line comes next: the watch line, the rule's, the start labels' or an event's; or the program is over. `Past`
// has the numbers after that of `Over`, from 0 on.
// By hand, as promised: docs/PROOF-MAP.md names `program::stages::answer`, which answers at every stage's number.
#[derive(Clone, Copy, Debug, PartialEq, Eq)]
pub enum Stage {
    Watch,
    Rule,
    Start,
    Event,
    Over,
    Past(u64),
}

impl Stage {
    // The stage of the next line, after a line at this one that was refused or not.
    #[tactic(auto, unfolding(crate::specs::Following::next_stage))]
    pub fn after(self, refused: bool) -> Stage
        ensures { stage_number result ≡ next_stage (stage_number self) refused }
    {
        match (self, refused) {
            (Stage::Event | Stage::Over | Stage::Past(_), _) => self,
            (_, true) => Stage::Over,
            (Stage::Watch, false) => Stage::Rule,
            (Stage::Rule, false) => Stage::Start,
            (Stage::Start, false) => Stage::Event,
        }
    }
}

// An answer's parts, out of its reply word.
pub fn decode(word: u64) -> Result<Accepted, Refused>
    ensures { PartsPromised word (reply_of result) }
{
    let number = word % 256;
    if number != 0 {
        return Err(Refused {
            number,
            place: word / 4294967296,
        });
    }
    Ok(Accepted {
        holds: word / 256 % 2 == 1,
        value: word / 65536 % 65536,
    })
}

// Whether takes follow a line: after an offer that was accepted, and so left an event pending.
// By hand, as no plainer: `offered` is a truth about the line, from which the answer follows.
pub fn takes_follow(offered: bool, reply: Result<Accepted, Refused>) -> bool
    ensures { FollowPromised is_held offered (reply_of reply) result }
{
    match reply {
        Ok(accepted) => offered & (accepted.value != 0),
        Err(_) => false,
    }
}

// Whether a take is followed by another.
pub fn take_follows(reply: Result<Accepted, Refused>) -> bool
    ensures { FollowPromised takes_again false (reply_of reply) result }
{
    match reply {
        Ok(accepted) => accepted.value != 0,
        Err(refused) => refused.number == u64::from(Refusal::FalseClock),
    }
}

// Whether takes follow a line, by the answer's parts.
// By hand, as promised: docs/PROOF-MAP.md names this function and the next, so they take any parts as before.
pub fn takes(offered: bool, reply: Reply) -> bool
    ensures { FollowPromised is_held offered reply result }
{
    takes_follow(offered, reply.result())
}

// Whether a take is followed by another, by the answer's parts.
pub fn takes_again(reply: Reply) -> bool
    ensures { FollowPromised takes_again false reply result }
{
    take_follows(reply.result())
}

// The number of the next line's stage, by that of this line's stage.
// By hand, as promised: docs/PROOF-MAP.md names this function, so it answers for every number as before.
pub fn next_stage(stage: u64, refused: bool) -> u64
    ensures { result ≡ next_stage stage refused }
{
    if stage >= 3 {
        return stage;
    }
    if refused {
        return 4;
    }
    stage + 1
}
