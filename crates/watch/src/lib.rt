// The calls that C makes, on numbers and byte slices, for counts of two bytes: the five calls, and the move that writes
// a watch of this form. They are exported by `watch_c`. Those of the other form are in `watch32`, compiled apart: so the
// compiler knows the width of a count in every loop of either.

#![tactic(auto)]

ghost use Rattle.std.specs.Prelude.{◌≡◌, [], ◌∷◌};
ghost use Rattle.call_words.specs.Words.{unpack_counts, unpack_labels};
ghost use Rattle.call_open.specs.Open.{open_call};
ghost use Rattle.call_offer.specs.Offer.{offer_call};
ghost use Rattle.call_take.specs.Take.{take_call};
ghost use Rattle.call_find.specs.Find.{find_call};
ghost use Rattle.call_close.specs.Close.{close_call};
ghost use Rattle.call_move.specs.Move.{move_call};
ghost use Rattle.answers.specs.Answer.{reply_word};

// Opens a watch with a rule's text, so many processes, and start labels that are the bytes of a word.
pub fn watch_open(rule: &[u8], k: u64, labels: u64, record: &mut [u8], window: &mut [u8]) -> u64
    ensures reply { result ≡ reply_word (open_call 2 rule.now k (unpack_labels labels)
        «record».old window.old).answer }
    ensures bytes { «record».new ≡ (open_call 2 rule.now k (unpack_labels labels)
        «record».old window.old).bytes }
    ensures window { window.new ≡ (open_call 2 rule.now k (unpack_labels labels)
        «record».old window.old).window }
{
    let bytes = call_words::unpack_labels(labels);
    call_open::open(2, rule, k, bytes, record, window)
}

// Offers an event. Its clock is in two words, process p's count at bits 16p of the first or 16(p - 4) of the second;
// its labels are the bytes of a word.
pub fn watch_offer(mask: u64, low: u64, high: u64, labels: u64, record: &mut [u8]) -> u64
    ensures reply { result ≡ reply_word (offer_call 2 mask (unpack_counts 2 (low ∷ high ∷ [])) (unpack_labels labels)
        «record».old).answer }
    ensures bytes { «record».new ≡ (offer_call 2 mask (unpack_counts 2 (low ∷ high ∷ []))
        (unpack_labels labels) «record».old).bytes }
{
    let clock = call_words::unpack_counts(low, high);
    let bytes = call_words::unpack_labels(labels);
    call_offer::offer(2, mask, clock, bytes, record)
}

// Takes the first pending event that is decided on.
pub fn watch_take(record: &mut [u8], window: &mut [u8], scratch: &mut [u8]) -> u64
    ensures reply { result ≡ reply_word (take_call 2 «record».old window.old
        scratch.old).answer }
    ensures bytes { «record».new ≡ (take_call 2 «record».old window.old
        scratch.old).bytes }
    ensures window { window.new ≡ (take_call 2 «record».old window.old
        scratch.old).window }
    ensures scratch { scratch.new ≡ (take_call 2 «record».old window.old
        scratch.old).scratch }
{
    call_take::take(2, record, window, scratch)
}

// Finds the place of the first kept frontier at which a line holds.
pub fn watch_find(line: u64, record: &[u8], window: &[u8]) -> u64
    ensures { result ≡ reply_word (find_call 2 line «record».now window.now) }
{
    call_find::find(2, line, record, window)
}

// Closes a process that will send no more.
pub fn watch_close(process: u64, record: &mut [u8], window: &mut [u8]) -> u64
    ensures reply { result ≡ reply_word (close_call 2 process «record».old window.old).answer }
    ensures bytes { «record».new
        ≡ (close_call 2 process «record».old window.old).bytes }
    ensures window { window.new
        ≡ (close_call 2 process «record».old window.old).window }
{
    call_close::close(2, process, record, window)
}

// Writes a watch with counts of four bytes as one with counts of two, where every count has a place there (02 [6]). The
// one that is read stays as it is.
pub fn watch_narrow(record32: &[u8], window32: &[u8], record: &mut [u8], window: &mut [u8]) -> u64
    ensures reply { result ≡ (move_call 4 2 record32.now window32.now «record».old
        window.old).number }
    ensures bytes { «record».new ≡ (move_call 4 2 record32.now window32.now
        «record».old window.old).bytes }
    ensures window { window.new ≡ (move_call 4 2 record32.now window32.now
        «record».old window.old).window }
{
    call_move::move_watch(4, 2, record32, window32, record, window)
}
