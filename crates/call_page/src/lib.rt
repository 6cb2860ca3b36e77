// A page (02 [7]): the kept frontiers as text, a row for each.

#![tactic(auto)]

pub mod digits;
pub mod row;

ghost use Rattle.std.specs.Prelude.{ℕ, ◌*◌, ◌≤◌, ◌<◌, ◌≡◌, [], length, map, get_or};
ghost use Rattle.std.proofs.lemmas.List.Edits.{sets};
ghost use Rattle.frontiers.specs.Width.{Width};
ghost use Rattle.numbers.specs.RefusalNumber.{refused};
ghost use Rattle.answers.specs.Result.{result_word};
ghost use Rattle.call_page.specs.Page.{rows, page_call};
ghost use Rattle.call_page.specs.PageCode.{TenDigits, page_fault};

use crate::digits::DigitPairs;
use crate::row::put_row;
use frontiers::listed::Frontiers;
use frontiers::width::CountWidth;
use numbers::refusal::Refusal;
use records::fields::{kept_count, line_total, process_count};
use refusals::watch_fault;

// The bytes of a row.
const ROW: usize = 93;

// Writes the rows of frontiers at the page's start; k processes, and the rule's line.
#[inline(always)]
fn put_rows(page: &mut [u8], laid: &Frontiers, k: usize, line: u32, pairs: &DigitPairs)
    requires k_bound { k ≤ 8 }
    requires line_bound { line < 64 }
    requires ten_digits { (i : ℕ) → i < length laid.now → TenDigits (get_or (map (λ f. f.counts) laid.now) i []) }
    requires laid_in_bounds { 93 * length laid.now ≤ length page.old }
    ensures { page.new ≡ sets page.old 0 (rows k line laid.now) }
{
    for i in 0..laid.len() {
        let counts = laid.counts_at(i);
        let holds = codec::has_bit(laid.values_at(i), line);
        put_row(page, ROW * i, k, counts, holds, pairs);
    }
}

// What a page is turned back for.
#[inline(always)]
fn page_fault(w: CountWidth, record: &[u8], window: &[u8], page_len: usize) -> Result<(), Refusal>
    ensures { refused result ≡ page_fault w «record».now window.now page_len }
{
    watch_fault(w.bytes(), record, window.len())?;
    if page_len < ROW * (kept_count(record) as usize) {
        return Err(Refusal::ShortPage);
    }
    Ok(())
}

// Writes a page: the reply, and the page's bytes. Nothing is written before all is judged.
// By hand, as promised: docs/PROOF-MAP.md names this function, so it asks for a number as before.
pub fn write_page(w: usize, record: &[u8], window: &[u8], page: &mut [u8]) -> u64
    requires { Width w }
    ensures reply { result
        ≡ result_word (page_call w «record».now window.now page.old).answer }
    ensures page { page.new
        ≡ (page_call w «record».now window.now page.old).page }
{
    let width = CountWidth::of(w);
    if let Err(refusal) = page_fault(width, record, window, page.len()) {
        return u64::from(refusal);
    }
    let kept = kept_count(record);
    let k = process_count(record) as usize;
    let line = line_total(record) - 1;
    let laid = Frontiers::of(window, width, kept as usize);
    put_rows(page, &laid, k, line, &DigitPairs::new());
    65536 * u64::from(kept)
}
