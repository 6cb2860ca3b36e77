// Answers in the words of 01's program: (state (1 0) no 2), (held 1), (again), (refused 36 0).

use answers::AGAIN;
use frontiers::width::CountWidth;
use std::io;

// The number that a capital letter stands for: of a reply word its refusal R, place P and number N; of the record how
// many events it holds H, how many lines its table has L, and the taken counts X, Y and Z of processes 0, 1 and 2.
fn value(letter: u8, word: u64, s: &[u8; 1368]) -> u64 {
    match letter {
        b'R' => word % 256,
        b'P' => word >> 32,
        b'N' => word >> 16,
        b'H' => records::fields::pending_count(s) as u64,
        b'L' => u64::from(records::fields::line_total(s)),
        _ => {
            let taken = records::fields::taken_counts(s, CountWidth::of(2));
            u64::from(taken[usize::from(letter % 8)])
        }
    }
}

// Prints the words up to a bar, or all of them and a line feed. The place after the bar, or the length.
pub(crate) fn say(rt: &impl Print, words: &[u8], word: u64, s: &[u8; 1368]) -> io::Result<usize> {
    for (i, &c) in words.iter().enumerate() {
        match c {
            b'|' => return Ok(i + 1),
            b'A'..=b'Z' => rt.print(value(c, word, s))?,
            _ => rt.write_all(&[c])?,
        }
    }
    println!(rt; "")?;
    Ok(words.len())
}

// Prints what the call with a code answered.
pub(crate) fn say_answer(rt: &impl Print, code: u8, word: u64, s: &[u8; 1368]) -> io::Result<()> {
    let three = records::fields::process_count(s) == 3;
    let holds = (word >> 8) % 2 == 1;
    let words: &[u8] = if word % 256 != 0 {
        b"(refused R P)"
    } else if code == b'e' {
        if word == AGAIN {
            b"(again)"
        } else {
            b"(held N)"
        }
    } else if code == b'f' {
        if word == 0 { b"none" } else { b"at N" }
    } else if word == 0 {
        b"nothing ready"
    } else if three {
        if holds {
            b"(state (X Y Z) yes N)"
        } else {
            b"(state (X Y Z) no N)"
        }
    } else {
        if holds {
            b"(state (X Y) yes N)"
        } else {
            b"(state (X Y) no N)"
        }
    };
    say(rt, words, word, s)?;
    Ok(())
}
