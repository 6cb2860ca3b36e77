// The calls that C makes, on numbers and byte slices, for counts of four bytes (02 [6]): the five calls, the move that
// writes a watch of this form, the page, the busiest day, and the calls of watches that share a pool. They are exported
// by `watch32_c`.

#![tactic(auto)]

ghost use Rattle.std.specs.Prelude.{◌≡◌, [], ◌∷◌};
ghost use Rattle.call_words.specs.Words.{unpack_counts, unpack_labels};
ghost use Rattle.call_open.specs.Open.{open_call};
ghost use Rattle.call_offer.specs.Offer.{offer_call};
ghost use Rattle.call_take.specs.Take.{take_call};
ghost use Rattle.call_find.specs.Find.{find_call};
ghost use Rattle.call_close.specs.Close.{close_call};
ghost use Rattle.call_move.specs.Move.{move_call};
ghost use Rattle.call_page.specs.Page.{page_call};
ghost use Rattle.call_busiest.specs.Busiest.{busiest_call};
ghost use Rattle.call_shares.specs.Shares.{set_shares};
ghost use Rattle.call_shared.specs.Shared.{shared_open, shared_take, shared_close};
ghost use Rattle.answers.specs.Answer.{reply_word};
ghost use Rattle.answers.specs.Result.{result_word};

// Opens a watch with a rule's text, so many processes, and start labels that are the bytes of a word.
pub fn watch32_open(rule: &[u8], k: u64, labels: u64, record: &mut [u8], window: &mut [u8]) -> u64
    ensures reply { result ≡ reply_word (open_call 4 rule.now k (unpack_labels labels)
        «record».old window.old).answer }
    ensures bytes { «record».new ≡ (open_call 4 rule.now k (unpack_labels labels)
        «record».old window.old).bytes }
    ensures window { window.new ≡ (open_call 4 rule.now k (unpack_labels labels)
        «record».old window.old).window }
{
    let bytes = call_words::unpack_labels(labels);
    call_open::open(4, rule, k, bytes, record, window)
}

// Offers an event. Its clock is in four words of two counts each, the lower process in the lower half; its labels are
// the bytes of a word.
pub fn watch32_offer(
    mask: u64,
    c01: u64,
    c23: u64,
    c45: u64,
    c67: u64,
    labels: u64,
    record: &mut [u8],
) -> u64
    ensures reply { result ≡ reply_word (offer_call 4 mask (unpack_counts 4 (c01 ∷ c23 ∷ c45 ∷ c67 ∷ []))
        (unpack_labels labels) «record».old).answer }
    ensures bytes { «record».new ≡ (offer_call 4 mask (unpack_counts 4 (c01 ∷ c23 ∷ c45 ∷ c67 ∷ []))
        (unpack_labels labels) «record».old).bytes }
{
    let clock = call_words::unpack_wide_counts(c01, c23, c45, c67);
    let bytes = call_words::unpack_labels(labels);
    call_offer::offer(4, mask, clock, bytes, record)
}

// Takes the first pending event that is decided on.
pub fn watch32_take(record: &mut [u8], window: &mut [u8], scratch: &mut [u8]) -> u64
    ensures reply { result ≡ reply_word (take_call 4 «record».old window.old
        scratch.old).answer }
    ensures bytes { «record».new ≡ (take_call 4 «record».old window.old
        scratch.old).bytes }
    ensures window { window.new ≡ (take_call 4 «record».old window.old
        scratch.old).window }
    ensures scratch { scratch.new ≡ (take_call 4 «record».old window.old
        scratch.old).scratch }
{
    call_take::take(4, record, window, scratch)
}

// Finds the place of the first kept frontier at which a line holds.
pub fn watch32_find(line: u64, record: &[u8], window: &[u8]) -> u64
    ensures { result ≡ reply_word (find_call 4 line «record».now window.now) }
{
    call_find::find(4, line, record, window)
}

// Closes a process that will send no more.
pub fn watch32_close(process: u64, record: &mut [u8], window: &mut [u8]) -> u64
    ensures reply { result ≡ reply_word (close_call 4 process «record».old window.old).answer }
    ensures bytes { «record».new
        ≡ (close_call 4 process «record».old window.old).bytes }
    ensures window { window.new
        ≡ (close_call 4 process «record».old window.old).window }
{
    call_close::close(4, process, record, window)
}

// Writes a watch with counts of two bytes as one with counts of four. The one that is read stays as it is.
pub fn watch_widen(record: &[u8], window: &[u8], record32: &mut [u8], window32: &mut [u8]) -> u64
    ensures reply { result ≡ (move_call 2 4 «record».now window.now record32.old
        window32.old).number }
    ensures bytes { record32.new ≡ (move_call 2 4 «record».now window.now
        record32.old window32.old).bytes }
    ensures window { window32.new ≡ (move_call 2 4 «record».now window.now
        record32.old window32.old).window }
{
    call_move::move_watch(2, 4, record, window, record32, window32)
}

// Writes the kept frontiers as text, a row for each (02 [7]).
pub fn watch32_page(record: &[u8], window: &[u8], page: &mut [u8]) -> u64
    ensures reply { result
        ≡ result_word (page_call 4 «record».now window.now page.old).answer }
    ensures page { page.new
        ≡ (page_call 4 «record».now window.now page.old).page }
{
    call_page::write_page(4, record, window, page)
}

// Writes the events of a busiest day into a list (02 [8]).
pub fn watch32_busiest(k: u64, n: u64, events: &mut [u8]) -> u64
    ensures reply { result ≡ result_word (busiest_call 4 k n events.old).answer }
    ensures events { events.new ≡ (busiest_call 4 k n events.old).events }
{
    call_busiest::busiest(4, k, n, events)
}

// Writes the shares of watches into a pool (02 [10]).
pub fn watch32_set_shares(shares: &[u16], pool: &mut [u8]) -> u64
    ensures reply { result ≡ result_word (set_shares shares.now pool.old).answer }
    ensures pool { pool.new ≡ (set_shares shares.now pool.old).pool }
{
    call_shares::set_shares(shares, pool)
}

// Opens a watch that shares a pool, by its number there.
pub fn watch32_shared_open(
    rule: &[u8],
    k: u64,
    labels: u64,
    record: &mut [u8],
    window: &mut [u8],
    pool: &mut [u8],
    number: u64,
) -> u64
    ensures reply { result ≡ reply_word (shared_open 4 rule.now k (unpack_labels labels)
        «record».old window.old pool.old number).call.answer }
    ensures bytes { «record».new ≡ (shared_open 4 rule.now k (unpack_labels labels)
        «record».old window.old pool.old number).call.bytes }
    ensures window { window.new ≡ (shared_open 4 rule.now k (unpack_labels labels)
        «record».old window.old pool.old number).call.window }
    ensures pool { pool.new ≡ (shared_open 4 rule.now k (unpack_labels labels)
        «record».old window.old pool.old number).pool }
{
    let bytes = call_words::unpack_labels(labels);
    call_shared::opening::open(4, rule, k, bytes, record, window, pool, number)
}

// Takes the first pending event that is decided on, of a watch that shares a pool.
pub fn watch32_shared_take(
    record: &mut [u8],
    window: &mut [u8],
    scratch: &mut [u8],
    pool: &mut [u8],
    number: u64,
) -> u64
    ensures reply { result ≡ reply_word (shared_take 4 «record».old window.old
        scratch.old pool.old number).call.answer }
    ensures bytes { «record».new ≡ (shared_take 4 «record».old window.old
        scratch.old pool.old number).call.bytes }
    ensures window { window.new ≡ (shared_take 4 «record».old window.old
        scratch.old pool.old number).call.window }
    ensures scratch { scratch.new ≡ (shared_take 4 «record».old window.old
        scratch.old pool.old number).call.scratch }
    ensures pool { pool.new ≡ (shared_take 4 «record».old window.old
        scratch.old pool.old number).pool }
{
    call_shared::taking::take(4, record, window, scratch, pool, number)
}

// Closes a process of a watch that shares a pool.
pub fn watch32_shared_close(
    process: u64,
    record: &mut [u8],
    window: &mut [u8],
    pool: &mut [u8],
    number: u64,
) -> u64
    ensures reply { result ≡ reply_word (shared_close 4 process «record».old window.old
        pool.old number).call.answer }
    ensures bytes { «record».new ≡ (shared_close 4 process «record».old window.old
        pool.old number).call.bytes }
    ensures window { window.new ≡ (shared_close 4 process «record».old window.old
        pool.old number).call.window }
    ensures pool { pool.new ≡ (shared_close 4 process «record».old window.old
        pool.old number).pool }
{
    call_shared::closing::close(4, process, record, window, pool, number)
}
