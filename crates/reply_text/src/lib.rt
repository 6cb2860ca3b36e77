// The answers' text, laid into a lent buffer piece by piece: each piece goes after the text so far.

#![tactic(auto)]

// The stored form of the program's watches.
pub mod form;

ghost use Rattle.std.specs.Prelude.{◌+◌, ◌≤◌, ◌≡◌, ◌++◌, length, take};
ghost use Rattle.codec.specs.Ascii.{ascii};
ghost use Rattle.records.specs.Record.{record_length};
ghost use Rattle.reply_text.specs.Form.{program_width};
ghost use Rattle.codec.specs.Decimal.{numeral_of, numeral};
ghost use Rattle.reply_text.specs.Texts.{counts_text};
ghost use Rattle.replies.specs.Replies.{reply_of};
ghost use Rattle.reply_text.specs.Promises.{TextPromised};

use crate::form::WIDTH;
use frontiers::width::CountWidth;
use replies::Reply;
use replies::reply::{Accepted, Refused};

// Lays bytes from a place on: the place after them.
// By hand, as no plainer: buffer and place are two parameters. A struct of both would hold the buffer by a `&mut`, and
// each caller's promise on `out` would have to say how that comes back.
pub fn put(out: &mut [u8], at: usize, bytes: &[u8]) -> usize
    requires { at + length bytes.now ≤ length out.old }
    ensures value { result ≡ at + length bytes.now }
    ensures out_after { take result out.new ≡ take at out.old ++ bytes.now }
{
    let end = at + bytes.len();
    out[at..end].copy_from_slice(bytes);
    end
}

// Lays a number's digits, at most so many.
fn put_number(out: &mut [u8], at: usize, n: u64, most: usize) -> usize
    requires { at + most ≤ length out.old }
    ensures upper_bound { result ≤ at + most }
    ensures out_after { take result out.new ≡ take at out.old ++ numeral_of most n }
{
    if most == 0 {
        return at;
    }
    if n < 10 {
        out[at] = b'0' + n as u8;
        return at + 1;
    }
    let end = put_number(out, at, n / 10, most - 1);
    out[end] = b'0' + (n % 10) as u8;
    end + 1
}

// Lays bytes and a number after them.
fn piece(out: &mut [u8], at: usize, bytes: &[u8], n: u64) -> usize
    requires { at + length bytes.now + 20 ≤ length out.old }
    ensures upper_bound { result ≤ at + length bytes.now + 20 }
    ensures out_after { take result out.new ≡ take at out.old ++ bytes.now ++ numeral n }
{
    let end = put(out, at, bytes);
    put_number(out, end, n, 20)
}

// Lays the first k of eight counts, but at least one, with single spaces between them, after the text's beginning.
fn put_counts(out: &mut [u8], counts: [u32; 8], k: usize) -> usize
    requires k_bound { k ≤ 8 }
    requires in_bounds { 256 ≤ length out.old }
    ensures upper_bound { result ≤ 180 }
    ensures out_after { take result out.new ≡ ascii "(state (" ++ counts_text counts k }
{
    let mut at = piece(out, 0, b"(state (", u64::from(counts[0]));
    for &count in &counts[1..k.max(1)] {
        at = piece(out, at, b" ", u64::from(count));
    }
    at
}

// Lays the text of an answer, given as what was accepted or refused, and the record that the call left: the text's
// length. `offered` tells an offer's answer from those to other lines and of takes.
// By hand, as no plainer: it is a truth about the line, from which the text follows.
pub fn lay_text(
    record: &[u8],
    k: u64,
    reply: Result<Accepted, Refused>,
    offered: bool,
    out: &mut [u8],
) -> usize
    requires k_bound { k ≤ 8 }
    requires record_len { length «record».now ≡ record_length program_width }
    requires in_bounds { 256 ≤ length out.old }
    ensures upper_bound { result ≤ length out.new }
    ensures text_promised { TextPromised k offered «record».now (reply_of reply) (take result out.new) }
{
    match reply {
        Err(refused) => {
            let first = piece(out, 0, b"(refused ", refused.number);
            let second = piece(out, first, b" ", refused.place);
            put(out, second, b")\n")
        }
        Ok(accepted) if accepted.value == 0 => {
            if accepted.holds {
                put(out, 0, b"(again)\n")
            } else {
                0
            }
        }
        Ok(accepted) if offered => {
            let first = piece(out, 0, b"(held ", accepted.value);
            put(out, first, b")\n")
        }
        Ok(accepted) => {
            let counts = records::fields::taken_counts(record, CountWidth::of(WIDTH));
            let first = put_counts(out, counts, k as usize);
            let verdict: &[u8] = if accepted.holds { b") yes " } else { b") no " };
            let second = piece(out, first, verdict, accepted.value);
            put(out, second, b")\n")
        }
    }
}

// The same, of the answer's parts.
// By hand, as promised: docs/PROOF-MAP.md names this function, so it takes any parts as before.
pub fn answer_text(record: &[u8], k: u64, reply: Reply, offered: bool, out: &mut [u8]) -> usize
    requires k_bound { k ≤ 8 }
    requires record_len { length «record».now ≡ record_length program_width }
    requires in_bounds { 256 ≤ length out.old }
    ensures upper_bound { result ≤ length out.new }
    ensures text_promised { TextPromised k offered «record».now reply (take result out.new) }
{
    lay_text(record, k, reply.result(), offered, out)
}
