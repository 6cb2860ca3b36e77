// Judging a frontier by a table.

ghost use Rattle.std.specs.Prelude.{◌*◌, ◌^◌, ◌≤◌, ◌<◌, ◌≡◌, length};
ghost use Rattle.codec.specs.Bit.{bit};
ghost use Rattle.pactl.specs.TableBytes.{lines_of};
ghost use Rattle.pactl.specs.Judge.{proposition_judged, not_judged, and_judged, ey_judged, es_judged, as_judged, judge_line, with_bit, judge as judged};

use crate::Line;
use crate::table::read_line;

// Whether a bit of a word is set; no bit from 64 up is.
fn has(word: u64, p: u8) -> bool
    ensures { result ≡ bit word p }
{
    p < 64 && codec::has_bit(word, u32::from(p))
}

// The six clauses, in the order of source 000, section 3, where each is a sentence under "Calculating the Values of
// Subformulas on the Nodes".

// Sentence 1, val(F, q): proposition b of process a, as the process's label byte has it.
fn judge_proposition(labels: [u8; 8], a: u8, b: u8) -> bool
    ensures { result ≡ proposition_judged labels a b }
{
    a < 8 && has(u64::from(labels[usize::from(a)]), b)
}

// Sentence 2, val(F, ¬η): not line a.
fn judge_not(v: u64, a: u8) -> bool
    ensures { result ≡ not_judged v a }
{
    !has(v, a)
}

// Sentence 3, val(F, (η₁ ∧ η₂)): line a and line b.
fn judge_and(v: u64, a: u8, b: u8) -> bool
    ensures { result ≡ and_judged v a b }
{
    has(v, a) & has(v, b)
}

// Sentence 4, val(F, EY η): some preceding cut has line a.
fn judge_ey(any: u64, a: u8) -> bool
    ensures { result ≡ ey_judged any a }
{
    has(any, a)
}

// Sentence 5, val(F, E(η₁ S η₂)): line b, or line a and some preceding cut has this line.
fn judge_es(v: u64, any: u64, i: u8, a: u8, b: u8) -> bool
    ensures { result ≡ es_judged v any i a b }
{
    has(v, b) | (has(v, a) & has(any, i))
}

// Sentence 6, val(F, A(η₁ S η₂)): line b, or line a and there is a preceding cut and all of them have this line.
fn judge_as(v: u64, all: u64, preceded: bool, i: u8, a: u8, b: u8) -> bool
    ensures { result ≡ as_judged v all preceded i a b }
{
    has(v, b) | (has(v, a) & (preceded & has(all, i)))
}

// Line i, by its kind: kinds 0 to 5 are sentences 1 to 6.
fn judge_line(
    labels: [u8; 8],
    v: u64,
    any: u64,
    all: u64,
    preceded: bool,
    i: u8,
    line: Line,
) -> bool
    ensures { result ≡ judge_line labels v any all preceded i line }
{
    let Line { kind, a, b } = line;
    match kind {
        0 => judge_proposition(labels, a, b),
        1 => judge_not(v, a),
        2 => judge_and(v, a, b),
        3 => judge_ey(any, a),
        4 => judge_es(v, any, i, a, b),
        _ => judge_as(v, all, preceded, i, a, b),
    }
}

// A word with bit i added, where that is asked; without a branch, as no guess of a truth is often right.
fn with_bit(v: u64, i: u32, t: bool) -> u64
    requires { (i < 64) × (v < 2 ^ i) }
    ensures { result ≡ with_bit v i t }
{
    v + (u64::from(t) << i)
}

// A frontier's word: bit i is line i's truth there. The words of the cuts that precede it go in by their OR and their
// AND.
pub fn judge(table: &[u8], lines: u32, labels: [u8; 8], any: u64, all: u64, preceded: bool) -> u64
    requires { (lines ≤ 64) × (3 * lines ≤ length table.now) }
    ensures { result ≡ judged labels any all preceded (lines_of table.now lines) }
{
    let mut v = 0;
    for i in 0..lines {
        let holds = judge_line(labels, v, any, all, preceded, i as u8, read_line(table, i));
        v = with_bit(v, i, holds);
    }
    v
}
