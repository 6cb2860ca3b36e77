// The program watch (01, Examples: the program): reads lines of standard input, and prints answers. What is printed for
// a line stands in the crate `program`; here are the reading, the writing and the loop around them.

#![tactic(auto)]

// Standard input, from chunks of any size to lines.
mod input;

use input::Input;
use program::turn::{OUT_BYTES, begin, respond};
use replies::Stage;
use reply_text::form::{RECORD_BYTES, WINDOW_BYTES};

// What is kept of a line. Its first 4,107 bytes decide what it is answered with (line_laws LinePrefix).
const LINE_BYTES: usize = 4112;

// Answers line after line, until the input or the program is over. A line's answers are written, whole, before the next
// line is waited for. A first state that cannot be written ends the program. A proved loop has to end, and nothing says
// that the input does: so lines are counted, up to a number that no input has.
fn main(rt: HostRuntime) {
    let mut line = [0u8; LINE_BYTES];
    let mut rule = [0u8; LINE_BYTES];
    let mut record = [0u8; RECORD_BYTES];
    let mut window = [0u8; WINDOW_BYTES];
    let mut scratch = [0u8; WINDOW_BYTES];
    let mut out = [0u8; OUT_BYTES];
    let mut session = begin();
    let mut input = Input::new(rt.stdin());
    for _ in 0..u64::MAX {
        let Some(n) = input.next_line(&mut line) else {
            return;
        };
        let turn = respond(
            session,
            &line[..n],
            &mut rule,
            &mut record,
            &mut window,
            &mut scratch,
            &mut out,
        );
        let written = rt.write_all(&out[..turn.length]).is_ok();
        if !turn.session.goes_on() || (!written && session.stage != Stage::Event) {
            return;
        }
        session = turn.session;
    }
}
