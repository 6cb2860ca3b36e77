// The rule's line.

ghost use Rattle.std.specs.Prelude.{◌≡◌, length};
ghost use Rattle.rules.specs.Reader.{read_rule};
ghost use Rattle.lines.specs.Lines.{rule_text, rule_closed, rule_line, RuleWithin};
ghost use Rattle.lines.specs.LinesCode.{rule_line_of};

use line_pieces::reading::{has_byte, head, limited};
use numbers::fault::Fault;
use numbers::refusal::Refusal;

// The rule's line: the rule is the bytes from `start` to before `end`. A fault of the rule itself has its place
// counted from `start`.
#[derive(Clone, Copy, Debug, PartialEq, Eq)]
pub struct Rule {
    pub start: usize,
    pub end: usize,
}

// The rule's bytes: what stands between its place and the line's last byte.
fn text(line: &[u8]) -> &[u8]
    ensures { result.now ≡ rule_text line.now }
{
    if line.len() < 7 {
        b""
    } else {
        &line[6..line.len() - 1]
    }
}

// The line's last byte, and before it the rule's own faults.
fn closed(line: &[u8], k: u32) -> Result<Rule, Fault>
    ensures value { rule_line_of result ≡ rule_closed line.now (read_rule (rule_text line.now) k) }
    ensures rule_within { RuleWithin (length line.now) (rule_line_of result) }
{
    rules::reading::read_rule(text(line), k, &mut [0u8; 192])?;
    // A rule is not empty, so the line has a last byte after it.
    let end = line.len() - 1;
    if !has_byte(line, end, b')') {
        return Err(Fault {
            refusal: Refusal::Grammar,
            place: end,
        });
    }
    Ok(Rule { start: 6, end })
}

// Reads (rule form) for k processes.
pub fn read_rule(line: &[u8], k: u32) -> Result<Rule, Fault>
    ensures value { rule_line_of result ≡ rule_line line.now k }
    ensures rule_within { RuleWithin (length line.now) (rule_line_of result) }
{
    limited(line, head(line, b"(rule "))?;
    closed(line, k)
}
