// The join of clocks (01, Clocks and cuts: the largest, count by count).

ghost use Rattle.std.specs.Prelude.{max, ◌≡◌};
ghost use Rattle.codec.specs.Bit.{bit};
ghost use Rattle.clocks.specs.Bounds.{upper};
ghost use Rattle.clocks.specs.Joined.{join_to};
ghost use Rattle.clocks.specs.Counts.{at, list_of, clock_rows};

use std::array;

// The larger of two clocks, count by count.
pub fn larger(a: [u32; 8], b: [u32; 8]) -> [u32; 8]
    ensures { result ≡ list_of 8 (upper (at a) (at b)) }
{
    array::from_fn(|p| a[p].max(b[p]))
}

// The largest, count by count, of the clocks of the processes in a mask.
pub fn join(last: [[u32; 8]; 8], mask: u8) -> [u32; 8]
    ensures { result ≡ list_of 8 (join_to 8 (bit mask) (clock_rows last)) }
{
    let word = u64::from(mask);
    let mut out = [0u32; 8];
    for (p, clock) in last.iter().enumerate() {
        if codec::has_bit(word, p as u32) {
            // A variable of its own: the check does not cover a call whose result is stored over an array it was given.
            let joined = larger(*clock, out);
            out = joined;
        }
    }
    out
}
