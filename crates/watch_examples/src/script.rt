// The lines of standard input: words to print, and behind a bar a call. An empty line ends a section.
//   |o ROOM K RULE         opens a watch of K processes, with ROOM bytes of window and start labels 0
//   |e MASK CLOCK LABELS   offers an event; CLOCK and LABELS have a number for each process, with commas between them
//   |t ROOM                takes, with ROOM bytes of window and of scratch
//   |f ROOM LINE           finds

ghost use Rattle.std.specs.Prelude.{◌≤◌, ◌<◌, length};

use crate::answer::{say, say_answer};
use std::io;

// The place of the first such byte from a place on, or the length.
fn place_of(byte: u8, bytes: &[u8], from: usize) -> usize
    requires { from ≤ length bytes.now }
    ensures { (from ≤ result) × (result ≤ length bytes.now) }
{
    match bytes[from..].iter().position(|b| *b == byte) {
        Some(i) => from + i,
        None => bytes.len(),
    }
}

// The number behind so many blanks from a place on. Parts between commas are numbers of the processes in turn, so many
// bits apart.
fn number(line: &[u8], from: usize, blanks: u32, bits: u64) -> u64 {
    let mut left = blanks;
    let mut before: u64 = 0;
    let mut shift: u64 = 0;
    let mut part: u64 = 0;
    for &c in line.iter().skip(from) {
        if c == b' ' {
            if left == 0 {
                break;
            }
            left -= 1;
            before = 0;
            shift = 0;
            part = 0;
        } else if c == b',' {
            before |= part << (shift % 64);
            shift = (shift % 64) + (bits % 64);
            part = 0;
        } else {
            part = (part % 10000) * 10 + u64::from(c % 16);
        }
    }
    before | (part << (shift % 64))
}

// Makes the call of a line, whose code stands at a place; its reply word.
fn call(line: &[u8], at: usize, s: &mut [u8; 1368], window: &mut [u8], scratch: &mut [u8]) -> u64
    requires { at < length line.now }
{
    let first = number(line, at, 1, 0);
    let second = number(line, at, 2, 16);
    match line[at] {
        b'o' => {
            let rule = place_of(b'(', line, at);
            watch::watch_open(&line[rule..], second, 0, s, window)
        }
        b't' => watch::watch_take(s, window, scratch),
        b'f' => watch::watch_find(second, s, window),
        _ => watch::watch_offer(first, second, 0, number(line, at, 3, 8), s),
    }
}

// One line. The first ROOM bytes of window and scratch are lent to its call. With no words before the bar the answer is
// not printed.
fn step(
    rt: &impl Print,
    line: &[u8],
    s: &mut [u8; 1368],
    window: &mut [u8],
    scratch: &mut [u8],
) -> io::Result<()> {
    let at = say(rt, line, 0, s)?;
    if at >= line.len() {
        return Ok(());
    }
    let room = number(line, at, 1, 0) as usize;
    if room > window.len() || room > scratch.len() {
        return Ok(());
    }
    let word = call(line, at, s, &mut window[..room], &mut scratch[..room]);
    if at > 1 {
        say_answer(rt, line[at], word, s)?;
    }
    Ok(())
}

// The lines from a place on up to an empty one; the place after that.
pub(crate) fn run(
    rt: &impl Print,
    input: &[u8],
    from: usize,
    s: &mut [u8; 1368],
    window: &mut [u8; 41000],
    scratch: &mut [u8; 41000],
) -> io::Result<usize> {
    let mut start = from;
    while start < input.len() {
        let end = place_of(b'\n', input, start);
        if end == start {
            return Ok(end + 1);
        }
        step(rt, &input[start..end], s, window, scratch)?;
        start = end + 1;
    }
    Ok(start)
}
