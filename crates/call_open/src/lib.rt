// Open (01, The calls): reads a rule's text, the number of processes and the start labels, and writes record and
// window.

#![tactic(auto)]

ghost use Rattle.std.specs.Prelude.{◌*◌, ◌≤◌, ◌≡◌, length};
ghost use Rattle.pactl.specs.TableBytes.{lines_of};
ghost use Rattle.frontiers.specs.Width.{Width};
ghost use Rattle.frontiers.specs.Bytes.{frontier_length, window_bytes};
ghost use Rattle.records.specs.Record.{record_length};
ghost use Rattle.call_open.specs.Open.{first_record, open_table, open_call};
ghost use Rattle.answers.specs.Answer.{reply_word};
ghost use Rattle.numbers.specs.RefusalNumber.{refused};
ghost use Rattle.call_open.specs.OpenCode.{zeros_judged, open_fault};

use answers::{state_word, turned_word};
use clocks::refusal::bad_start;
use frontiers::Frontier;
use frontiers::moving::clear_all;
use frontiers::width::CountWidth;
use numbers::refusal::Refusal;
use records::fields::table_place;
use refusals::{bad_processes, bad_record_length, bad_window_length};
use rules::reading::read_rule;

// Writes the record of a new watch: the number of processes, the table's first lines, one frontier kept.
// By hand, for C: the number of lines stands beside the table, here and at open_table, as in the record that C lends.
#[inline(always)]
pub fn write_record(record: &mut [u8], w: CountWidth, k: u32, table: &[u8], lines: u32)
    requires record_len { length «record».old ≡ record_length w }
    requires k_bound { k ≤ 8 }
    requires lines_bound { lines ≤ 64 }
    requires lines_in_bounds { 3 * lines ≤ length table.now }
    ensures { «record».new ≡ first_record w k (lines_of table.now lines) }
{
    clear_all(record);
    record[0] = k as u8;
    record[1] = lines as u8;
    codec::write_u32(record, 4, 1);
    let place = table_place(w);
    let n = 3 * (lines as usize);
    record[place..place + n].copy_from_slice(&table[..n]);
}

// Writes the window of a new watch: the cut of zeros, with its labels and values.
#[inline(always)]
pub fn write_window(window: &mut [u8], w: CountWidth, labels: [u8; 8], values: u64)
    requires w_in_bounds { frontier_length w ≤ length window.old }
    ensures { window.new ≡ window_bytes w (length window.old) (zeros_judged labels values) }
{
    clear_all(window);
    frontiers::stored::write_frontier(
        window,
        w,
        Frontier {
            counts: [0; 8],
            labels,
            masks: [0; 8],
            values,
        },
    );
}

// Opens with a table: the reply, and the bytes of record and window after it.
#[inline(always)]
pub fn open_table(
    w: CountWidth,
    k: u32,
    labels: [u8; 8],
    table: &[u8],
    lines: u32,
    record: &mut [u8],
    window: &mut [u8],
) -> u64
    requires record_len { length «record».old ≡ record_length w }
    requires w_in_bounds { frontier_length w ≤ length window.old }
    requires k_bound { k ≤ 8 }
    requires le_lines { (1 ≤ lines) × (lines ≤ 64) }
    requires lines_in_bounds { 3 * lines ≤ length table.now }
    ensures reply { result ≡ reply_word (open_table w (lines_of table.now lines) k labels (length window.old)).answer }
    ensures bytes { «record».new ≡ (open_table w (lines_of table.now lines) k labels (length window.old)).bytes }
    ensures window { window.new ≡ (open_table w (lines_of table.now lines) k labels (length window.old)).window }
{
    let values = pactl::judging::judge(table, lines, labels, 0, 0, false);
    write_record(record, w, k, table, lines);
    write_window(window, w, labels, values);
    state_word(codec::has_bit(values, lines - 1), 1)
}

// What turns an open back before its text is read.
#[inline(always)]
pub fn open_fault(w: CountWidth, k: u64, labels: [u8; 8], n: usize, m: usize) -> Result<(), Refusal>
    ensures { refused result ≡ open_fault w k labels n m }
{
    if bad_record_length(w, n) || bad_window_length(w, m) {
        return Err(Refusal::Length);
    }
    if bad_processes(k) {
        return Err(Refusal::Processes);
    }
    if bad_start(k as u32, labels) {
        return Err(Refusal::Labels);
    }
    Ok(())
}

// Opens a watch with a rule's text: the reply, and the bytes of record and window after it.
// By hand, as promised: docs/PROOF-MAP.md names this function, so it asks for a number as before.
pub fn open(
    w: usize,
    rule: &[u8],
    k: u64,
    labels: [u8; 8],
    record: &mut [u8],
    window: &mut [u8],
) -> u64
    requires { Width w }
    ensures reply { result ≡ reply_word (open_call w rule.now k labels «record».old window.old).answer }
    ensures bytes { «record».new ≡ (open_call w rule.now k labels «record».old window.old).bytes }
    ensures window { window.new ≡ (open_call w rule.now k labels «record».old window.old).window }
{
    let width = CountWidth::of(w);
    if let Err(refusal) = open_fault(width, k, labels, record.len(), window.len()) {
        return refusal.into();
    }
    let k = k as u32;
    let mut table = [0u8; 192];
    match read_rule(rule, k, &mut table) {
        Err(fault) => turned_word(fault),
        Ok(lines) => open_table(width, k, labels, &table, lines, record, window),
    }
}
