// A line with its takes (01, Examples: the program): after an accepted event it takes until nothing is ready or 36. The
// answers' texts are laid into a lent buffer, one after the other.

ghost use Rattle.std.specs.Prelude.{ℕ, ◌+◌, ◌*◌, ◌≤◌, ◌<◌, ◌≡◌, List, ◌++◌, length, take};
ghost use Rattle.records.specs.Record.{record_length, taken_counts};
ghost use Rattle.answers.specs.Answer.{Answer};
ghost use Rattle.call_take.specs.Take.{take_call};
ghost use Rattle.reply_text.specs.Form.{program_width, program_window};
ghost use Rattle.reply_text.specs.Texts.{answer_text};
ghost use Rattle.replies.specs.Replies.{reply_of, parts_of, Possible};
ghost use Rattle.replies.specs.Following.{takes_again, stage_number, over_stage};
ghost use Rattle.program.specs.Stages.{Standing, Stands, Within};
ghost use Rattle.program.specs.Turn.{takes_while, most_takes, at_first, turned, Responded};

use crate::stages::{SILENT, answer};
use crate::{Laid, Response, Session};
use replies::reply::{Accepted, Refused};
use replies::{Stage, decode, take_follows, takes_follow};
use reply_text::form::FRONTIER_BYTES;
use reply_text::lay_text;
use watch32::watch32_take;

// One answer's text has room in so many bytes.
const TEXT_BYTES: usize = 256;
// One take more than events can be pending.
const MOST_TAKES: usize = 33;
// A line's answers have room in so many bytes, with those of its takes: 8,704.
pub const OUT_BYTES: usize = TEXT_BYTES + MOST_TAKES * TEXT_BYTES;

// Lays an answer's text after what is laid: the place after it.
// By hand, as no plainer: `offered`, here and below, is what the line was, and chooses no step of the code.
fn lay(
    record: &[u8],
    k: u64,
    reply: Result<Accepted, Refused>,
    offered: bool,
    out: &mut [u8],
    at: usize,
) -> usize
    requires k_bound { k ≤ 8 }
    requires record_len { length «record».now ≡ record_length program_width }
    requires at_in_bounds { at + 256 ≤ length out.old }
    ensures upper_bound { result ≤ at + 256 }
    ensures out_after { (a : Answer) → Possible offered (taken_counts program_width «record».now) a
        → reply_of reply ≡ parts_of a → take result out.new ≡ take at out.old ++ answer_text k a }
{
    let end = at + TEXT_BYTES;
    let length = lay_text(record, k, reply, offered, &mut out[at..end]);
    at + length
}

// Takes once, and lays the answer's text after what is laid.
fn take_next(
    k: u64,
    record: &mut [u8],
    window: &mut [u8],
    scratch: &mut [u8],
    out: &mut [u8],
    at: usize,
) -> Laid
    requires k_bound { k ≤ 8 }
    requires record_len { length «record».old ≡ record_length program_width }
    requires at_in_bounds { at + 256 ≤ length out.old }
    ensures end { result.end ≤ at + 256 }
    ensures text { take result.end out.new ≡ take at out.old
        ++ answer_text k (take_call program_width «record».old window.old
        scratch.old).answer }
    ensures follows { result.follows ≡ takes_again (take_call program_width «record».old
        window.old scratch.old).answer }
    ensures bytes { «record».new ≡ (take_call program_width «record».old window.old
        scratch.old).bytes }
    ensures window { window.new ≡ (take_call program_width «record».old window.old
        scratch.old).window }
    ensures scratch { scratch.new ≡ (take_call program_width «record».old window.old
        scratch.old).scratch }
{
    let reply = decode(watch32_take(record, window, scratch));
    let end = lay(record, k, reply, false, out, at);
    Laid {
        end,
        follows: take_follows(reply),
    }
}

// Takes as long as another take is to follow, and lays the answers' texts after what is laid: the place after them.
fn take_all(
    mut follows: bool,
    k: u64,
    record: &mut [u8],
    window: &mut [u8],
    scratch: &mut [u8],
    out: &mut [u8],
    start: usize,
) -> usize
    requires k_bound { k ≤ 8 }
    requires record_len { length «record».old ≡ record_length program_width }
    requires start_in_bounds { start + 33 * 256 ≤ length out.old }
    ensures end { result ≤ length out.new }
    ensures text { take result out.new ≡ take start out.old
        ++ (takes_while most_takes follows k «record».old window.old scratch.old).text }
    ensures bytes { «record».new ≡ (takes_while most_takes follows k «record».old
        window.old scratch.old).bytes }
    ensures window { window.new ≡ (takes_while most_takes follows k «record».old
        window.old scratch.old).window }
    ensures scratch { scratch.new ≡ (takes_while most_takes follows k «record».old
        window.old scratch.old).scratch }
{
    let mut at = start;
    for _ in 0..MOST_TAKES {
        if !follows {
            break;
        }
        let took = take_next(k, record, window, scratch, out, at);
        at = took.end;
        follows = took.follows;
    }
    at
}

// Where the program stands before the first line.
pub fn begin() -> Session
    ensures by_index { (rule bytes window : List ℕ) → Stands (at_first bytes window) result rule bytes window }
    ensures by_index_2 { (n : ℕ) → Within n result }
{
    Session {
        stage: Stage::Watch,
        k: 0,
        room: 0,
        text: 0,
        reply: SILENT,
    }
}

// Answers a line, with the takes that follow it. The window and the scratch are whole buffers, and the calls are lent
// the part of each that the room of the first line asks for. The texts of all answers come into `out`.
// By hand, as no plainer: the buffers are parameters of their own, since the promises name what is left in each.
pub fn respond(
    session: Session,
    line: &[u8],
    rule: &mut [u8],
    record: &mut [u8],
    window: &mut [u8],
    scratch: &mut [u8],
    out: &mut [u8],
) -> Response
    requires stage_lt_over_stage { stage_number session.stage < over_stage }
    requires line_in_bounds { length line.now ≤ length rule.old }
    requires within_2 { Within (length rule.old) session }
    requires record_len { (length «record».old ≡ record_length program_width) × (length window.old ≡ program_window)
        × (length scratch.old ≡ program_window) × (34 * 256 ≤ length out.old) }
    ensures turned { (t : Standing)
        → Stands t session rule.old «record».old window.old
        → Responded (turned t line.now scratch.old) result rule.new «record».new
        window.new scratch.new out.new }
    ensures within { Within (length rule.new) result.session }
    ensures length { result.length ≤ length out.new }
{
    let bytes = FRONTIER_BYTES * session.room;
    let offered = matches!(session.stage, Stage::Event);
    let next = answer(session, line, rule, record, &mut window[..bytes]);
    let reply = next.reply.result();
    let first = lay(record, next.k, reply, offered, out, 0);
    let length = take_all(
        takes_follow(offered, reply),
        next.k,
        record,
        &mut window[..bytes],
        &mut scratch[..bytes],
        out,
        first,
    );
    Response {
        session: next,
        length,
    }
}
