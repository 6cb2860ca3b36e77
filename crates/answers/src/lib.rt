// The reply words.

#![tactic(auto)]

ghost use Rattle.std.specs.Prelude.{◌+◌, ◌*◌, ◌<◌, ◌≡◌};
ghost use Rattle.numbers.specs.RefusalNumber.{number_of};
ghost use Rattle.answers.specs.Answer.{flag};

use numbers::fault::Fault;

// The word of an offer answered "again": the flag alone.
pub const AGAIN: u64 = 256;

// The word of an accepted open or take: the rule's truth and the frontiers kept.
pub fn state_word(holds: bool, kept: u32) -> u64
    ensures { result ≡ 256 * flag holds + 65536 * kept }
{
    256 * u64::from(holds) + 65536 * u64::from(kept)
}

// The word of a rule that was turned back: the refusal's number, and the byte's place.
pub fn turned_word(fault: Fault) -> u64
    requires { fault.place < 1024 }
    ensures { result ≡ number_of fault.refusal + 4294967296 * fault.place }
{
    u64::from(fault.refusal) + 4294967296 * (fault.place as u64)
}
