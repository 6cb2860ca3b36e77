// Numbers, from their digits.

ghost use Rattle.std.specs.Prelude.{◌≤◌, ◌≡◌};
ghost use Rattle.line_pieces.specs.ReadingCode.{read_of};
ghost use Rattle.line_pieces.specs.Number.{number_at};
ghost use Rattle.line_pieces.specs.Digits as digits;
ghost use Rattle.line_pieces.specs.Digits.{DigitsRead};

use crate::Here;
use crate::reading::has_byte;
use numbers::fault::Fault;
use numbers::refusal::Refusal;

// The largest number that is told apart from larger ones.
const LARGEST: u64 = 4294967295;

// Digits read: the place after them, and the number that they say.
#[derive(Clone, Copy)]
struct Digits {
    end: usize,
    value: u64,
}

// A number with one digit more. If it is above 4,294,967,295 already it stays as it is: so it stays above, and does
// not wrap.
#[tactic(auto, unfolding(crate::specs::Digits::grown))]
fn grown(value: u64, digit: u8) -> u64
    requires { (48 ≤ digit) × (digit ≤ 57) }
    ensures { result ≡ digits.grown value digit }
{
    if value <= LARGEST {
        10 * value + u64::from(digit - b'0')
    } else {
        value
    }
}

// The digits from a place on, and the number that they say.
fn read_digits(line: &[u8], start: usize) -> Digits
    ensures { DigitsRead line.now start result.end result.value }
{
    let mut value: u64 = 0;
    for end in start..line.len() {
        let digit = line[end];
        if !digit.is_ascii_digit() {
            return Digits { end, value };
        }
        value = grown(value, digit);
    }
    Digits {
        end: start.max(line.len()),
        value,
    }
}

// The number at a place, from `least` to `most`.
pub fn read_number(line: &[u8], start: usize, least: u64, most: u64) -> Result<Here, Fault>
    requires { most ≤ 4294967295 }
    ensures { read_of result ≡ number_at line.now start least most }
{
    let Digits { end, value } = read_digits(line, start);
    if end <= start {
        return Err(Fault {
            refusal: Refusal::Grammar,
            place: start,
        });
    }
    if has_byte(line, start, b'0') && start + 1 < end {
        return Err(Fault {
            refusal: Refusal::Grammar,
            place: start + 1,
        });
    }
    if !(least..=most).contains(&value) {
        return Err(Fault {
            refusal: Refusal::LineLimit,
            place: start,
        });
    }
    Ok(Here { place: end, value })
}
