// Lists of numbers, single spaces between them.

ghost use Rattle.std.specs.Prelude.{◌+◌, ◌≤◌, ◌≡◌, Ok, cond, [], set, IfOk};
ghost use Rattle.line_pieces.specs.Read.{At};
ghost use Rattle.line_pieces.specs.ReadingCode.{here_of, read_of};
ghost use Rattle.line_pieces.specs.NumberList.{list_read, all_numbers_at, then_list, then_spaced_list, then_close};
ghost use Rattle.line_pieces.specs.NumberListCode.{numbers_of, numbers_read, ascending};

use crate::number::read_number;
use crate::reading::has_byte;
use crate::{BadList, Here, Numbers};
use numbers::fault::Fault;
use numbers::refusal::Refusal;

// Keeps a value as number n of eight; from the eighth up nothing is kept.
pub fn keep(values: &mut [u64; 8], n: usize, v: u64)
    ensures { values.new ≡ set values.old n v }
{
    // By hand, for the proof: after a write by `get_mut` only the length is known.
    if n < values.len() {
        values[n] = v;
    }
}

// The order of a list's numbers.
#[derive(Clone, Copy, Debug, PartialEq, Eq)]
pub enum Order {
    Ascending,
    Any,
}

impl Order {
    ghost use Rattle.line_pieces.specs.NumberListCode.{ascending};

    // What the number after v is at least.
    fn least_after(self, v: u64) -> u64
        requires { v ≤ 4294967295 }
        ensures { result ≡ cond (ascending self) (v + 1) 0 }
    {
        match self {
            Order::Ascending => v + 1,
            Order::Any => 0,
        }
    }
}

// All the numbers from a place on.
fn read_numbers(line: &[u8], start: usize, order: Order, most: u64) -> Result<Numbers, BadList>
    requires { most ≤ 4294967295 }
    ensures { numbers_of result ≡ numbers_read (all_numbers_at line.now (ascending order) most start) }
{
    let mut values = [0u64; 8];
    let mut count: usize = 0;
    let mut least: u64 = 0;
    let mut at = start;
    loop {
        let found = read_number(line, at, least, most).map_err(|fault| BadList { values, fault })?;
        keep(&mut values, count, found.value);
        count += 1;
        if !has_byte(line, found.place, b' ') {
            let here = Here {
                place: found.place,
                value: count as u64,
            };
            return Ok(Numbers { values, here });
        }
        least = order.least_after(found.value);
        at = found.place + 1;
    }
}

// No numbers, where a reading stands.
fn no_numbers(place: usize) -> Numbers
    ensures { numbers_of (Ok result) ≡ numbers_read (list_read [] (At place 0)) }
{
    Numbers {
        values: [0u64; 8],
        here: Here { place, value: 0 },
    }
}

// A list after its opening bracket: it may be empty.
// By hand, as no plainer: this list and the next differ in what stands before them, and share the rest.
pub fn then_list(line: &[u8], order: Order, most: u64, here: Here) -> Result<Numbers, BadList>
    requires { most ≤ 4294967295 }
    ensures { numbers_of result ≡ numbers_read (then_list line.now (ascending order) most (here_of here)) }
{
    if has_byte(line, here.place, b')') {
        return Ok(no_numbers(here.place));
    }
    read_numbers(line, here.place, order, most)
}

// A list after a line's word, with a space before its first number.
pub fn then_spaced_list(line: &[u8], most: u64, here: Here) -> Result<Numbers, BadList>
    requires { most ≤ 4294967295 }
    ensures { numbers_of result ≡ numbers_read (then_spaced_list line.now most (here_of here)) }
{
    if !has_byte(line, here.place, b' ') {
        return Ok(no_numbers(here.place));
    }
    read_numbers(line, here.place + 1, Order::Any, most)
}

// The closing bracket of a list that has `least` to `most` numbers.
#[tactic(auto, unfolding(crate::specs::NumberList::then_close))]
pub fn then_close(line: &[u8], least: u64, most: u64, here: Here) -> Result<Here, Fault>
    ensures value { read_of result ≡ then_close line.now least most (here_of here) }
    ensures few { IfOk result (λ closed. closed.value ≤ most) }
{
    let Here { place, value } = here;
    if !has_byte(line, place, b')') {
        return Err(Fault {
            refusal: Refusal::Grammar,
            place,
        });
    }
    if !(least..=most).contains(&value) {
        return Err(Fault {
            refusal: Refusal::LineLimit,
            place,
        });
    }
    Ok(Here {
        place: place + 1,
        value,
    })
}
