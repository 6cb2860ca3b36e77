// Reads lines of standard input: a digit k and a rule's text. Prints for each what the reader answers: the fault and
// its place, or the table's lines, whether the check of tables passes them, and words judged by the table.

#![tactic(auto)]

use numbers::fault::Fault;
use pactl::judging::judge;
use pactl::table::good_table;
use rules::reading::read_rule;
use std::io;
use std::io::Read;

// A fault's number and place.
fn print_fault(rt: &impl Print, fault: Fault) -> io::Result<()> {
    print!(rt; " {} {}", u8::from(fault.refusal), fault.place)
}

// The bytes of a table's lines.
fn print_table(rt: &impl Print, bytes: &[u8]) -> io::Result<()> {
    for byte in bytes {
        print!(rt; " {byte}")?;
    }
    Ok(())
}

// A frontier with these labels judged with nothing before it, and with cuts before it that have every second line or
// all but a few.
fn print_judged(rt: &impl Print, table: &[u8], lines: u32, labels: [u8; 8]) -> io::Result<()> {
    if lines > 64 || table.len() < 192 {
        return Ok(());
    }
    let first = judge(table, lines, labels, 0, 0, false);
    let second = judge(table, lines, labels, 0xaaaa_aaaa_aaaa_aaaa, 0, true);
    let third = judge(table, lines, labels, u64::MAX, 0x5555_5555_5555_5555, true);
    print!(rt; " {first} {second} {third}")
}

fn print_accepted(rt: &impl Print, k: u32, table: &[u8], lines: u32) -> io::Result<()> {
    print!(rt; "accepted {lines}")?;
    if lines <= 64 && table.len() == 192 {
        let said = if good_table(k, table, lines) {
            "good"
        } else {
            "bad"
        };
        print!(rt; " {said}:")?;
    }
    let end = 3 * (lines as usize);
    if end <= table.len() {
        print_table(rt, &table[..end])?;
    }
    print!(rt; " judged:")?;
    print_judged(rt, table, lines, [0; 8])?;
    print_judged(rt, table, lines, [1, 3, 0, 0, 0, 0, 0, 128])
}

fn answer(rt: &impl Print, k: u32, text: &[u8]) -> io::Result<()> {
    let mut table = [255u8; 192];
    match read_rule(text, k, &mut table) {
        Ok(lines) => print_accepted(rt, k, &table, lines)?,
        Err(fault) => {
            print!(rt; "refused")?;
            print_fault(rt, fault)?;
        }
    }
    println!(rt; "")
}

// The line's first byte is the number of processes, as a digit.
fn answer_line(rt: &impl Print, line: &[u8]) -> io::Result<()> {
    match line {
        [] => Ok(()),
        [digit, text @ ..] => answer(rt, u32::from(digit.saturating_sub(b'0')), text),
    }
}

fn answer_lines(rt: &impl Print, input: &[u8]) -> io::Result<()> {
    for line in input.split(|byte| *byte == b'\n') {
        answer_line(rt, line)?;
    }
    Ok(())
}

fn main(rt: HostRuntime) -> io::Result<()> {
    let mut input = [0u8; 32768];
    // As much of the input as there is room for.
    let n = io::copy(&mut rt.stdin().take(32768), &mut &mut input[..])?;
    answer_lines(&rt, &input[..(n as usize).min(32768)])?;
    // a table of a wrong length
    let mut short = [7u8; 191];
    if let Err(fault) = read_rule(b"(true)", 1, &mut short) {
        print_fault(&rt, fault)?;
    }
    print!(&rt; " {}", short[0])?;
    println!(rt; "")
}
