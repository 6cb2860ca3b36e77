// What each line is answered with (01, Examples: the program): the lines come in their order, and each is judged when
// it is read.

ghost use Rattle.std.specs.Prelude.{ℕ, ◌≡◌, ◌≤◌, false, List, length};
ghost use Rattle.numbers.specs.RefusalNumber.{number_of};
ghost use Rattle.lines.specs.Lines.{watch_line, rule_line, start_line, did_line};
ghost use Rattle.answers.specs.Answer.{nothing_ready};
ghost use Rattle.replies.specs.Following.{stage_number, next_stage};
ghost use Rattle.replies.specs.Replies.{parts_of};
ghost use Rattle.program.specs.Stages.{Standing, Stands, Within, Replied, refuse as refuseLine, watch_read, rule_read, start_read, did_read, line_read};

use crate::Session;
use lines::did::read_did;
use lines::rule::{Rule, read_rule};
use lines::start::read_start;
use lines::watch::read_watch;
use numbers::fault::Fault;
use numbers::refusal::Refusal;
use refusals::bad_processes;
use replies::reply::Refused;
use replies::{Reply, Stage, decode};
use reply_text::put;
use watch32::{watch32_offer, watch32_open};

// The reply to a line that is answered with nothing.
pub(crate) const SILENT: Reply = Reply {
    number: 0,
    place: 0,
    holds: false,
    value: 0,
};

// A number of processes that is not 1 to 8 has no place in its line.
const NO_PROCESSES: Fault = Fault {
    refusal: Refusal::Processes,
    place: 0,
};

// A line is refused, and nothing else changes.
fn refuse(mut session: Session, fault: Fault) -> Session
    ensures stands { (t : Standing) (rule bytes window : List ℕ) → Stands t session rule bytes window → Stands (refuseLine t (number_of fault.refusal) fault.place) result rule bytes window }
    ensures text { result.text ≡ session.text }
{
    session.stage = session.stage.after(true);
    session.reply = Reply::from(Err(Refused::from(fault)));
    session
}

// A line is accepted, and answered with nothing.
fn accept(mut session: Session) -> Session
    ensures stage { stage_number result.stage ≡ next_stage (stage_number session.stage) false }
    ensures reply { result.reply ≡ parts_of nothing_ready }
    ensures processes { result.k ≡ session.k }
    ensures frontiers { result.room ≡ session.room }
    ensures text { result.text ≡ session.text }
{
    session.stage = session.stage.after(false);
    session.reply = SILENT;
    session
}

// The first line: processes, and room in frontiers.
fn watch_line(session: Session, line: &[u8]) -> Session
    ensures stands { (t : Standing) (rule bytes window : List ℕ) → Stands t session rule bytes window → Stands (watch_read t (watch_line line.now)) result rule bytes window }
    ensures text { result.text ≡ session.text }
{
    match read_watch(line) {
        Err(fault) => refuse(session, fault),
        Ok(watch) if bad_processes(watch.k) => refuse(session, NO_PROCESSES),
        Ok(watch) => accept(Session {
            stage: session.stage,
            k: watch.k,
            room: watch.room as usize,
            text: session.text,
            reply: session.reply,
        }),
    }
}

// The second line: the rule's text is kept until the watch is opened.
fn rule_line(mut session: Session, line: &[u8], rule: &mut [u8]) -> Session
    requires line_in_bounds { length line.now ≤ length rule.old }
    requires text_in_bounds { session.text ≤ length rule.old }
    ensures stands { (t : Standing) (bytes window : List ℕ) → Stands t session rule.old bytes window → Stands (rule_read t line.now (rule_line line.now t.k)) result rule.new bytes window }
    ensures text { result.text ≤ length rule.new }
{
    match read_rule(line, session.k as u32) {
        Err(fault) => refuse(session, fault),
        Ok(Rule { start, end }) => {
            session.text = put(rule, 0, &line[start..end]);
            accept(session)
        }
    }
}

// The reply to a call.
fn replied(mut session: Session, word: u64) -> Session
    ensures { Replied session word result }
{
    let reply = decode(word);
    session.stage = session.stage.after(reply.is_err());
    session.reply = Reply::from(reply);
    session
}

// The third line: the start labels open the watch.
fn start_line(
    session: Session,
    line: &[u8],
    rule: &[u8],
    record: &mut [u8],
    window: &mut [u8],
) -> Session
    requires text_in_bounds { session.text ≤ length rule.now }
    ensures stands { (t : Standing) → Stands t session rule.now «record».old window.old → Stands (start_read t (start_line line.now t.k)) result rule.now «record».new window.new }
    ensures text { result.text ≡ session.text }
{
    match read_start(line, session.k) {
        Err(fault) => refuse(session, fault),
        Ok(labels) => {
            let text = &rule[..session.text];
            replied(
                session,
                watch32_open(text, session.k, labels, record, window),
            )
        }
    }
}

// Any further line: an event.
fn did_line(session: Session, line: &[u8], record: &mut [u8]) -> Session
    ensures stands { (t : Standing) (rule window : List ℕ) → Stands t session rule «record».old window → Stands (did_read t (did_line line.now t.k)) result rule «record».new window }
    ensures text { result.text ≡ session.text }
{
    match read_did(line, session.k) {
        Err(fault) => refuse(session, fault),
        Ok(did) => replied(
            session,
            watch32_offer(
                did.mask, did.c01, did.c23, did.c45, did.c67, did.labels, record,
            ),
        ),
    }
}

// The answer to a line at its stage, where the window is as long as the first line's room.
pub fn answer(
    session: Session,
    line: &[u8],
    rule: &mut [u8],
    record: &mut [u8],
    window: &mut [u8],
) -> Session
    requires line_in_bounds { length line.now ≤ length rule.old }
    requires within { Within (length rule.old) session }
    ensures stands { (t : Standing) → Stands t session rule.old «record».old window.old → Stands (line_read t line.now) result rule.new «record».new window.new }
    ensures within_2 { Within (length rule.new) result }
{
    match session.stage {
        Stage::Watch => watch_line(session, line),
        Stage::Rule => rule_line(session, line, rule),
        Stage::Start => start_line(session, line, rule, record, window),
        Stage::Event | Stage::Over | Stage::Past(_) => did_line(session, line, record),
    }
}
