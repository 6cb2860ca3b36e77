// A line's pieces, from left to right. Each goes on from where a reading stands.

ghost use Rattle.std.specs.Prelude.{◌<◌, ◌≤◌, ◌≡◌, IsTrue, eqb, length};
ghost use Rattle.rules.specs.Text.{byte_at};
ghost use Rattle.line_pieces.specs.Reading.{then_byte, then_bytes, head_read, then_number, then_end};
ghost use Rattle.line_pieces.specs.ReadingCode.{here_of, read_of, within_limit};

use crate::Here;
use crate::number::read_number;
use numbers::fault::Fault;
use numbers::refusal::Refusal;

// The bytes that a line may have (01, Turned back, from the input: 10).
const LINE_LIMIT: usize = 4096;

// Whether a line has a byte at a place.
pub fn has_byte(line: &[u8], place: usize, b: u8) -> bool
    ensures value { result ≡ eqb (byte_at line.now place) b }
    ensures within { IsTrue result → place < length line.now }
{
    line.get(place) == Some(&b)
}

// One byte that the grammar has there.
#[tactic(auto, unfolding(crate::specs::Reading::then_byte))]
pub fn then_byte(line: &[u8], b: u8, here: Here) -> Result<Here, Fault>
    ensures { read_of result ≡ then_byte line.now b (here_of here) }
{
    let Here { place, value } = here;
    if !has_byte(line, place, b) {
        return Err(Fault {
            refusal: Refusal::Grammar,
            place,
        });
    }
    Ok(Here {
        place: place + 1,
        value,
    })
}

// Several such bytes.
pub fn then_bytes(line: &[u8], bytes: &[u8], here: Here) -> Result<Here, Fault>
    ensures { read_of result ≡ then_bytes line.now bytes.now (here_of here) }
{
    let mut read = here;
    for &b in bytes {
        read = then_byte(line, b, read)?;
    }
    Ok(read)
}

// A line's first bytes.
pub fn head(line: &[u8], bytes: &[u8]) -> Result<Here, Fault>
    ensures { read_of result ≡ head_read line.now bytes.now }
{
    then_bytes(line, bytes, Here { place: 0, value: 0 })
}

// A number from `least` to `most`.
#[tactic(auto, unfolding(crate::specs::Reading::then_number))]
pub fn then_number(line: &[u8], least: u64, most: u64, here: Here) -> Result<Here, Fault>
    requires { most ≤ 4294967295 }
    ensures { read_of result ≡ then_number line.now least most (here_of here) }
{
    read_number(line, here.place, least, most)
}

// The line's end.
#[tactic(auto, unfolding(crate::specs::Reading::then_end))]
pub fn then_end(line: &[u8], here: Here) -> Result<Here, Fault>
    ensures { read_of result ≡ then_end line.now (here_of here) }
{
    if here.place < line.len() {
        return Err(Fault {
            refusal: Refusal::Grammar,
            place: here.place,
        });
    }
    Ok(here)
}

// What a whole line is read to. One over the limit is turned back there, after the faults that stand up to there.
#[tactic(auto, unfolding(crate::specs::ReadingCode::within_limit))]
pub fn limited<T: Copy>(line: &[u8], read: Result<T, Fault>) -> Result<T, Fault>
    ensures { result ≡ within_limit line.now read }
{
    if line.len() <= LINE_LIMIT {
        return read;
    }
    match read {
        Err(fault) if fault.place <= LINE_LIMIT => Err(fault),
        _ => Err(Fault {
            refusal: Refusal::LineLimit,
            place: LINE_LIMIT,
        }),
    }
}
