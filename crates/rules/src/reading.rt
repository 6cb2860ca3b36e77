// Reading a rule's text to its table.

ghost use Rattle.std.specs.Prelude.{◌≡◌};
ghost use Rattle.rules.specs.RuleRead.{rule_read};
ghost use Rattle.rules.specs.RuleTable.{rule_answer, rule_table};

use crate::forms::{Reached, Rule, read_form};
use numbers::fault::Fault;
use numbers::refusal::Refusal;

// Reads a rule's text for k processes to the number of its lines: its table is left in `table`, which has 192 bytes. On
// a refusal nothing is written.
pub fn read_rule(text: &[u8], k: u32, table: &mut [u8]) -> Result<u32, Fault>
    ensures value { rule_read result ≡ rule_answer text.now k table.old }
    ensures table_after { table.new ≡ rule_table text.now k table.old }
{
    if table.len() != 192 {
        return Err(Fault {
            refusal: Refusal::Length,
            place: 0,
        });
    }
    let start = Reached {
        place: 0,
        laid: 0,
        closed: 0,
    };
    let mut lines = [0u8; 600];
    let form = read_form(&Rule { text, k }, 32, start, &mut lines)?;
    if form.place < text.len() {
        return Err(Fault {
            refusal: Refusal::Grammar,
            place: form.place,
        });
    }
    table.copy_from_slice(&lines[..192]);
    Ok(form.laid as u32)
}
