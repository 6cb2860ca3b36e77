// Find (01, The calls; 02 [4]): the first kept frontier at which a line of the table holds, or none. What looks through
// the frontiers is compiled into the call, where the width of a count is a constant.

#![tactic(auto)]

ghost use Rattle.std.specs.Prelude.{◌+◌, ◌≤◌, ◌<◌, ◌≡◌, IsNone, IfSome, length};
ghost use Rattle.frontiers.specs.Width.{Width};
ghost use Rattle.call_find.specs.Find.{find_from, find_call};
ghost use Rattle.answers.specs.Answer.{reply_word};
ghost use Rattle.call_find.specs.FindCode.{reply_from, IsFirst, four_values};

use frontiers::listed::Frontiers;
use frontiers::width::CountWidth;
use numbers::refusal::Refusal;
use records::fields::{kept_count, line_total};
use refusals::watch_fault;

// The bits that any of four frontiers has in its values, from number i on.
#[inline(always)]
fn four_values(laid: &Frontiers, i: usize) -> u64
    requires { i + 4 ≤ length laid.now }
    ensures { result ≡ four_values laid.now i }
{
    let first = laid.values_at(i);
    let second = laid.values_at(i + 1);
    let third = laid.values_at(i + 2);
    let fourth = laid.values_at(i + 3);
    (first | second) | (third | fourth)
}

// Passes over frontiers, four by four, at none of which a line holds: the number of the first that is left.
#[inline(always)]
fn pass_fours(laid: &Frontiers, line: u32) -> usize
    requires { line < 64 }
    ensures upper_bound { result ≤ length laid.now }
    ensures kept_value { reply_from line laid.now 0 ≡ reply_from line laid.now result }
{
    let fours = laid.len() / 4;
    4 * (0..fours)
        .find(|&four| codec::has_bit(four_values(laid, 4 * four), line))
        .unwrap_or(fours)
}

// The number of the first frontier at which a line holds.
#[inline(always)]
fn first_holding(laid: &Frontiers, line: u32) -> Option<usize>
    requires { line < 64 }
    ensures nowhere { IsNone result → reply_from line laid.now 0 ≡ reply_from line laid.now (length laid.now) }
    ensures first { IfSome result (IsFirst line laid.now) }
    ensures most { length laid.now ≤ 1024 }
{
    let start = pass_fours(laid, line);
    let kept = laid.len();
    (start..kept).find(|&i| codec::has_bit(laid.values_at(i), line))
}

// The reply for the first frontier at which a line holds.
#[inline(always)]
pub fn find_first(laid: &Frontiers, line: u32) -> u64
    requires { line < 64 }
    ensures { result ≡ reply_word (find_from line 0 laid.now) }
{
    match first_holding(laid, line) {
        Some(i) => 256 + 65536 * (i as u64),
        None => 0,
    }
}

// Finds the first kept frontier at which a line holds: the reply.
// By hand, as promised: docs/PROOF-MAP.md names this function, so it asks for a number as before.
pub fn find(w: usize, line: u64, record: &[u8], window: &[u8]) -> u64
    requires { Width w }
    ensures { result ≡ reply_word (find_call w line «record».now window.now) }
{
    let width = CountWidth::of(w);
    if let Err(refusal) = watch_fault(w, record, window.len()) {
        return refusal.into();
    }
    if u64::from(line_total(record)) <= line {
        return Refusal::NoSuchLine.into();
    }
    let laid = Frontiers::of(window, width, kept_count(record) as usize);
    find_first(&laid, line as u32)
}
