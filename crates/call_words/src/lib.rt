// Counts and labels out of the words that C hands over.

#![tactic(auto)]

ghost use Rattle.std.specs.Prelude.{◌*◌, ◌≤◌, ◌<◌, ◌≡◌, [], ◌∷◌};
ghost use Rattle.call_words.specs.Words.{part, unpack_counts, unpack_labels};

use std::array;

// Part i of a word, of so many bits each.
fn part(word: u64, bits: u32, i: u32) -> u32
    requires few { bits ≤ 32 }
    requires within { bits * i < 64 }
    ensures { result ≡ part bits word i }
{
    ((word >> (bits * i)) % (1 << bits)) as u32
}

// Eight counts of two bytes out of two words.
// By hand, as no plainer: this and the next stand for the two numbers of words that C hands over, each a line over
// `part`.
pub fn unpack_counts(low: u64, high: u64) -> [u32; 8]
    ensures { result ≡ unpack_counts 2 (low ∷ high ∷ []) }
{
    let words = [low, high];
    array::from_fn(|p| part(words[p / 4], 16, p as u32 % 4))
}

// Eight counts of four bytes out of four words.
pub fn unpack_wide_counts(c01: u64, c23: u64, c45: u64, c67: u64) -> [u32; 8]
    ensures { result ≡ unpack_counts 4 (c01 ∷ c23 ∷ c45 ∷ c67 ∷ []) }
{
    let words = [c01, c23, c45, c67];
    array::from_fn(|p| part(words[p / 2], 32, p as u32 % 2))
}

// Eight label bytes out of a word.
pub fn unpack_labels(word: u64) -> [u8; 8]
    ensures { result ≡ unpack_labels word }
{
    word.to_le_bytes()
}
