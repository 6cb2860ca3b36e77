// Reading a rule's words.

ghost use Rattle.std.specs.Prelude.{◌+◌, ◌≤◌, ◌≡◌, length};
ghost use Rattle.numbers.specs.declared.refusal.Refusal.TheVariants.{Grammar};
ghost use Rattle.rules.specs.Text.{byte_at};
ghost use Rattle.rules.specs.Reader.{rest_at, a_word_at, e_word_at, word_at};
ghost use Rattle.rules.specs.ReaderCode.{byte_of, word_then, word_read};

use crate::{Binary, Constant, Unary};
use numbers::fault::Fault;
use numbers::refusal::Refusal;

// A word of a form.
#[derive(Clone, Copy, Debug, PartialEq, Eq)]
pub enum Word {
    At,
    Constant(Constant),
    Unary(Unary),
    Binary(Binary),
}

// No word has this byte there.
#[derive(Clone, Copy, Debug, PartialEq, Eq)]
pub struct NoWord {
    pub place: usize,
}

impl From<NoWord> for Fault {
    ghost from_gives = { λ missing fault. fault ≡ record { refusal = Grammar; place = missing.place } };

    fn from(missing: NoWord) -> Fault {
        Fault {
            refusal: Refusal::Grammar,
            place: missing.place,
        }
    }
}

// The byte at a place of a text.
pub fn byte_at(text: &[u8], i: usize) -> Option<u8>
    ensures { byte_of result ≡ byte_at text.now i }
{
    text.get(i).copied()
}

// The rest of a word, letter by letter.
fn rest(text: &[u8], i: usize, letters: &[u8], word: Word) -> Result<(Word, usize), NoWord>
    requires { i + length letters.now ≤ 1024 }
    ensures { word_read result ≡ rest_at text.now i letters.now (word_then word (i + length letters.now)) }
{
    for (j, letter) in letters.iter().enumerate() {
        if byte_at(text, i + j) != Some(*letter) {
            return Err(NoWord { place: i + j });
        }
    }
    Ok((word, i + letters.len()))
}

// The words that begin with a, from their second letter on: at, as, ap, ay, ah, and.
fn a_word(text: &[u8], i: usize) -> Result<(Word, usize), NoWord>
    requires { i ≤ 1000 }
    ensures { word_read result ≡ a_word_at text.now i }
{
    let next = i + 1;
    match byte_at(text, i) {
        Some(b't') => Ok((Word::At, next)),
        Some(b's') => Ok((Word::Binary(Binary::As), next)),
        Some(b'p') => Ok((Word::Unary(Unary::Ap), next)),
        Some(b'y') => Ok((Word::Unary(Unary::Ay), next)),
        Some(b'h') => Ok((Word::Unary(Unary::Ah), next)),
        Some(b'n') => rest(text, next, b"d", Word::Binary(Binary::And)),
        _ => Err(NoWord { place: i }),
    }
}

// The words that begin with e, from their second letter on: ey, es, ep, eh.
fn e_word(text: &[u8], i: usize) -> Result<(Word, usize), NoWord>
    requires { i ≤ 1000 }
    ensures { word_read result ≡ e_word_at text.now i }
{
    let next = i + 1;
    match byte_at(text, i) {
        Some(b'y') => Ok((Word::Unary(Unary::Ey), next)),
        Some(b's') => Ok((Word::Binary(Binary::Es), next)),
        Some(b'p') => Ok((Word::Unary(Unary::Ep), next)),
        Some(b'h') => Ok((Word::Unary(Unary::Eh), next)),
        _ => Err(NoWord { place: i }),
    }
}

// The word at a place, with the place after it: those with a, those with e, not, true, false, or.
pub fn read_word(text: &[u8], i: usize) -> Result<(Word, usize), NoWord>
    requires { i ≤ 900 }
    ensures { word_read result ≡ word_at text.now i }
{
    let next = i + 1;
    match byte_at(text, i) {
        Some(b'a') => a_word(text, next),
        Some(b'e') => e_word(text, next),
        Some(b'n') => rest(text, next, b"ot", Word::Unary(Unary::Not)),
        Some(b't') => rest(text, next, b"rue", Word::Constant(Constant::True)),
        Some(b'f') => rest(text, next, b"alse", Word::Constant(Constant::False)),
        Some(b'o') => rest(text, next, b"r", Word::Binary(Binary::Or)),
        _ => Err(NoWord { place: i }),
    }
}
