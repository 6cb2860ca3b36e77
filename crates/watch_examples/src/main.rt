// Runs the examples of 01 that call the watch: each line of standard input is a step, and what its call answers is
// printed.

#![tactic(auto)]

mod answer;
mod script;

use std::io;
use std::io::Read;

// Says so if two windows have the same bytes.
fn compare(rt: &impl Print, one: &[u8; 41000], other: &[u8; 41000]) -> io::Result<()> {
    if one == other {
        println!(rt; "the same window")?;
    }
    Ok(())
}

// Two watches take the sections of the input in turn. After each pair of sections their windows are compared.
fn main(rt: HostRuntime) -> io::Result<()> {
    let mut input = [0u8; 8192];
    let mut s = [0u8; 1368];
    let mut t = [0u8; 1368];
    let mut one = [0u8; 41000];
    let mut other = [0u8; 41000];
    let mut scratch = [0u8; 41000];
    // As much of the input as there is room for.
    let n = io::copy(&mut rt.stdin().take(8192), &mut &mut input[..])?;
    let text = &input[..(n as usize).min(8192)];
    let mut at: usize = 0;
    for _ in 0..4 {
        at = script::run(&rt, text, at, &mut s, &mut one, &mut scratch)?;
        at = script::run(&rt, text, at, &mut t, &mut other, &mut scratch)?;
        compare(&rt, &one, &other)?;
    }
    Ok(())
}
