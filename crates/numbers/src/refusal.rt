// What a call or a line is turned back with (01, Turned back; 02 [5] to [8], [10]).

ghost use Rattle.std.specs.Prelude.{◌≡◌};
ghost use Rattle.numbers.specs.RefusalNumber.{number_of};

// Each one's condition is a definition, named beside it.
#[derive(Clone, Copy, Debug, PartialEq, Eq, Hash)]
pub enum Refusal {
    // From the input.
    // rules Fault: Fault1 (a rule), lines Grammar (a line): a byte that no text has there, or an early end.
    Grammar,
    // rules Fault: Fault2, a 33rd nested bracket.
    Nesting,
    // rules Fault: Fault3, over 64 lines.
    TooManyLines,
    // rules Fault: Fault4, a process or a proposition that is not there.
    Atom,
    // refusals Refusals: bad_processes, a number of processes that is not 1 to 8.
    Processes,
    // refusals Refusals: bad_record_length, bad_window_length, a lent buffer of a wrong length.
    Length,
    // clocks Refusal: bad_mask.
    Mask,
    // clocks Refusal: bad_clock.
    Clock,
    // clocks Refusal: bad_labels, and bad_start at open.
    Labels,
    // lines Fault: a number, a list or a line beyond its limit.
    LineLimit,
    // call_find Find: a line that the table has not.
    NoSuchLine,

    // From the state.
    // refusals Refusals: already_taken.
    Taken,
    // refusals Refusals: conflicting.
    Conflict,
    // call_offer Offer: 32 events are pending.
    Full,
    // refusals Refusals: bad_state.
    State,
    // call_take Take: the event decided on has a false clock.
    FalseClock,
    // call_take Take: an event is ready, and none fits.
    NoRoom,
    // refusals Refusals: not_open.
    NotOpen,
    // refusals Refusals: named_by at close, names_closed at offer.
    Named,
    // call_move Move: overflows.
    TooLarge,
    // call_page Page: short_page.
    ShortPage,
    // call_busiest Busiest: bad_day.
    Day,
    // call_busiest Busiest: too_busy.
    Busy,
    // call_shares Shares: bad_shares.
    Shares,
}

// The number that the scope gives it.
impl From<Refusal> for u8 {
    ghost from_gives = { λ refusal number. number ≡ number_of refusal };

    fn from(refusal: Refusal) -> u8 {
        match refusal {
            Refusal::Grammar => 1,
            Refusal::Nesting => 2,
            Refusal::TooManyLines => 3,
            Refusal::Atom => 4,
            Refusal::Processes => 5,
            Refusal::Length => 6,
            Refusal::Mask => 7,
            Refusal::Clock => 8,
            Refusal::Labels => 9,
            Refusal::LineLimit => 10,
            Refusal::NoSuchLine => 11,
            Refusal::Taken => 31,
            Refusal::Conflict => 32,
            Refusal::Full => 33,
            Refusal::State => 34,
            Refusal::FalseClock => 35,
            Refusal::NoRoom => 36,
            Refusal::NotOpen => 41,
            Refusal::Named => 42,
            Refusal::TooLarge => 43,
            Refusal::ShortPage => 44,
            Refusal::Day => 45,
            Refusal::Busy => 46,
            Refusal::Shares => 49,
        }
    }
}

// The same as a reply word, which has no place.
impl From<Refusal> for u64 {
    ghost from_gives = { λ refusal word. word ≡ number_of refusal };

    fn from(refusal: Refusal) -> u64 {
        u64::from(u8::from(refusal))
    }
}
