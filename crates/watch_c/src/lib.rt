// What C calls, for counts of two bytes. A crate is built either as a library for other crates or as a static library
// for C, so the functions stand in `watch`, which other crates use, and the exports here: each has the name, the
// parameters and the clauses of the function there, and calls it. Those of the other form are in `watch32_c`, compiled
// apart: so the compiler knows the width of a count in every loop of either.

#![tactic(auto)]

ghost use Rattle.std.specs.Prelude.{◌≡◌, [], ◌∷◌};
ghost use Rattle.call_words.specs.Words.{unpack_counts, unpack_labels};
ghost use Rattle.call_open.specs.Open.{open_call};
ghost use Rattle.call_offer.specs.Offer.{offer_call};
ghost use Rattle.call_take.specs.Take.{take_call};
ghost use Rattle.call_find.specs.Find.{find_call};
ghost use Rattle.call_close.specs.Close.{close_call};
ghost use Rattle.call_move.specs.Move.{move_call};
ghost use Rattle.answers.specs.Answer.{reply_word};

// Opens a watch with a rule's text, so many processes, and start labels that are the bytes of a word.
#[unsafe(no_mangle)]
pub extern "C" fn watch_open(
    rule: &[u8],
    k: u64,
    labels: u64,
    record: &mut [u8],
    window: &mut [u8],
) -> u64
    ensures reply { result ≡ reply_word (open_call 2 rule.now k (unpack_labels labels)
        «record».old window.old).answer }
    ensures bytes { «record».new ≡ (open_call 2 rule.now k (unpack_labels labels)
        «record».old window.old).bytes }
    ensures window { window.new ≡ (open_call 2 rule.now k (unpack_labels labels)
        «record».old window.old).window }
{
    watch::watch_open(rule, k, labels, record, window)
}

// Offers an event. Its clock is in two words, process p's count at bits 16p of the first or 16(p - 4) of the second;
// its labels are the bytes of a word.
#[unsafe(no_mangle)]
pub extern "C" fn watch_offer(mask: u64, low: u64, high: u64, labels: u64, record: &mut [u8]) -> u64
    ensures reply { result ≡ reply_word (offer_call 2 mask (unpack_counts 2 (low ∷ high ∷ [])) (unpack_labels labels)
        «record».old).answer }
    ensures bytes { «record».new ≡ (offer_call 2 mask (unpack_counts 2 (low ∷ high ∷ []))
        (unpack_labels labels) «record».old).bytes }
{
    watch::watch_offer(mask, low, high, labels, record)
}

// Takes the first pending event that is decided on.
#[unsafe(no_mangle)]
pub extern "C" fn watch_take(record: &mut [u8], window: &mut [u8], scratch: &mut [u8]) -> u64
    ensures reply { result ≡ reply_word (take_call 2 «record».old window.old
        scratch.old).answer }
    ensures bytes { «record».new ≡ (take_call 2 «record».old window.old
        scratch.old).bytes }
    ensures window { window.new ≡ (take_call 2 «record».old window.old
        scratch.old).window }
    ensures scratch { scratch.new ≡ (take_call 2 «record».old window.old
        scratch.old).scratch }
{
    watch::watch_take(record, window, scratch)
}

// Finds the place of the first kept frontier at which a line holds.
#[unsafe(no_mangle)]
pub extern "C" fn watch_find(line: u64, record: &[u8], window: &[u8]) -> u64
    ensures { result ≡ reply_word (find_call 2 line «record».now window.now) }
{
    watch::watch_find(line, record, window)
}

// Closes a process that will send no more.
#[unsafe(no_mangle)]
pub extern "C" fn watch_close(process: u64, record: &mut [u8], window: &mut [u8]) -> u64
    ensures reply { result ≡ reply_word (close_call 2 process «record».old window.old).answer }
    ensures bytes { «record».new
        ≡ (close_call 2 process «record».old window.old).bytes }
    ensures window { window.new
        ≡ (close_call 2 process «record».old window.old).window }
{
    watch::watch_close(process, record, window)
}

// Writes a watch with counts of four bytes as one with counts of two, where every count has a place there (02 [6]). The
// one that is read stays as it is.
#[unsafe(no_mangle)]
pub extern "C" fn watch_narrow(
    record32: &[u8],
    window32: &[u8],
    record: &mut [u8],
    window: &mut [u8],
) -> u64
    ensures reply { result ≡ (move_call 4 2 record32.now window32.now «record».old
        window.old).number }
    ensures bytes { «record».new ≡ (move_call 4 2 record32.now window32.now
        «record».old window.old).bytes }
    ensures window { window.new ≡ (move_call 4 2 record32.now window32.now
        «record».old window.old).window }
{
    watch::watch_narrow(record32, window32, record, window)
}
