// A row of a page: eight columns, and what is said of the rule.

ghost use Rattle.std.specs.Prelude.{◌+◌, ◌≤◌, ◌≡◌, length};
ghost use Rattle.std.proofs.lemmas.List.Edits.{sets};
ghost use Rattle.call_page.specs.Page.{row, ending};
ghost use Rattle.call_page.specs.PageCode.{TenDigits};

use crate::digits::DigitPairs;

// Writes what stands after the columns.
fn put_ending(page: &mut [u8], at: usize, holds: bool)
    requires { at + 5 ≤ length page.old }
    ensures { page.new ≡ sets page.old at (ending holds) }
{
    let ending: &[u8] = if holds { b" yes\n" } else { b" no \n" };
    page[at..at + ending.len()].copy_from_slice(ending);
}

// Writes a row, where there are k processes.
pub fn put_row(
    page: &mut [u8],
    at: usize,
    k: usize,
    counts: [u32; 8],
    holds: bool,
    pairs: &DigitPairs,
)
    requires k_bound { k ≤ 8 }
    requires ten_digits { TenDigits counts }
    requires at_in_bounds { at + 93 ≤ length page.old }
    ensures { page.new ≡ sets page.old at (row k counts holds) }
{
    for (p, count) in counts[..k].iter().enumerate() {
        pairs.put_count(page, at + 11 * p, *count);
    }
    page[at + 11 * k..at + 88].fill(b' ');
    put_ending(page, at + 88, holds);
}
