// Numbers in words, each a part below a base, the first lowest.

ghost use Rattle.std.specs.Prelude.{◌^◌, ◌≤◌, ◌<◌, ◌≡◌, length};
ghost use Rattle.clocks.specs.Counts.{at};
ghost use Rattle.lines.specs.Words.{packed_word, placed};

use line_pieces::list::keep;

// The numbers in a word, each below the base.
pub(crate) fn word_of(base: u64, values: &[u64]) -> u64
    requires some { 0 < base }
    requires room { base ^ length values.now ≤ 18446744073709551616 }
    ensures { result ≡ packed_word base values.now }
{
    let mut word: u64 = 0;
    for &v in values.iter().rev() {
        word = v % base + base * word;
    }
    word
}

// Eight numbers: the first n values each at its own place, 0 at the others.
pub(crate) fn place(n: u64, places: &[u64; 8], values: &[u64; 8]) -> [u64; 8]
    requires { n ≤ 8 }
    ensures { result ≡ placed n (at places.now) (at values.now) }
{
    let mut out = [0u64; 8];
    for j in 0..n as usize {
        keep(&mut out, places[j] as usize, values[j]);
    }
    out
}
