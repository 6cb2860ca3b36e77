// What a call or a line is answered with, as the code has it.

ghost use Rattle.std.specs.Prelude.{◌≡◌, ◌≤◌, Err};

use numbers::fault::Fault;

// What is answered to what was accepted: the rule's truth; the frontiers kept or the events pending.
// By hand, as no plainer: the truth stands for no missing value.
#[derive(Clone, Copy, Debug, PartialEq, Eq)]
pub struct Accepted {
    pub holds: bool,
    pub value: u64,
}

// What is answered to what was refused: the refusal's number, which is not 0, and its place.
// By hand, as no plainer: any number can stand in a word, also one that no `Refusal` has.
#[derive(Clone, Copy, Debug, PartialEq, Eq)]
pub struct Refused {
    pub number: u64,
    pub place: u64,
    ghost some: { 1 ≤ number },
}

// An answer's parts: a refusal's number and place, both 0 where there is none; the rule's truth; the frontiers kept or
// the events pending.
// By hand, as promised: docs/PROOF-MAP.md names functions that take these parts, also those of no answer.
#[derive(Clone, Copy, Debug, PartialEq, Eq)]
pub struct Reply {
    pub number: u64,
    pub place: u64,
    pub holds: bool,
    pub value: u64,
}

impl Reply {
    ghost use Rattle.replies.specs.Replies.{reply_of};
    ghost use Rattle.replies.specs.ReplyLaws.{parts_told};

    // What was accepted or refused, by its parts.
    pub fn result(self) -> Result<Accepted, Refused>
        ensures { reply_of result ≡ parts_told self }
    {
        if self.number != 0 {
            return Err(Refused {
                number: self.number,
                place: self.place,
            });
        }
        Ok(Accepted {
            holds: self.holds,
            value: self.value,
        })
    }
}

// The parts of what was accepted or refused.
impl From<Result<Accepted, Refused>> for Reply {
    ghost use Rattle.replies.specs.Replies.{reply_of};

    ghost from_gives = { λ answer reply. reply ≡ reply_of answer };

    fn from(answer: Result<Accepted, Refused>) -> Reply {
        match answer {
            Ok(accepted) => Reply {
                number: 0,
                place: 0,
                holds: accepted.holds,
                value: accepted.value,
            },
            Err(refused) => Reply {
                number: refused.number,
                place: refused.place,
                holds: false,
                value: 0,
            },
        }
    }
}

// A text's fault as it is answered.
impl From<Fault> for Refused {
    ghost use Rattle.replies.specs.Replies.{reply_of, reply_of_fault};

    ghost from_gives = { λ fault refused. reply_of (Err refused) ≡ reply_of_fault fault };

    fn from(fault: Fault) -> Refused {
        Refused {
            number: u64::from(fault.refusal),
            place: fault.place as u64,
        }
    }
}
