// How an offer that is not accepted is answered.

ghost use Rattle.std.specs.Prelude.{◌≡◌};
ghost use Rattle.call_offer.specs.declared.unaccepted.Unaccepted.TheVariants.{Refused};
ghost use Rattle.call_offer.specs.Unaccepted.{word_of};

use answers::AGAIN;
use numbers::refusal::Refusal;

#[derive(Clone, Copy, Debug, PartialEq, Eq, Hash)]
pub enum Unaccepted {
    // The same event is pending already.
    Again,
    Refused(Refusal),
}

impl From<Refusal> for Unaccepted {
    ghost from_gives = { λ refusal answer. answer ≡ Refused refusal };

    fn from(refusal: Refusal) -> Unaccepted {
        Unaccepted::Refused(refusal)
    }
}

// The reply word.
impl From<Unaccepted> for u64 {
    ghost from_gives = { λ answer word. word ≡ word_of answer };

    fn from(answer: Unaccepted) -> u64 {
        match answer {
            Unaccepted::Again => AGAIN,
            Unaccepted::Refused(refusal) => refusal.into(),
        }
    }
}
