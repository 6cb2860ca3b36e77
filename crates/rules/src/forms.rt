// Reading a rule's forms: their lines are laid down in a table.

ghost use Rattle.std.specs.Prelude.{◌+◌, ◌-◌, ◌≤◌, ◌<◌, ◌≡◌, length};
ghost use Rattle.rules.specs.Formula.{constant};
ghost use Rattle.rules.specs.Reader.{atom_at, close_at, inner_with, unary_with, binary_with, form_at};
ghost use Rattle.rules.specs.ReaderCode.{Expected, DigitDone, form_read};
ghost use Rattle.rules.specs.Laying.{digit_at, close_read, Done, Room};

use crate::laying::{
    Kind, Table, lay_after, lay_after_both, lay_before, lay_between, lay_constant, lay_line,
};
use crate::words::{Word, byte_at, read_word};
use crate::{Binary, Constant, Unary};
use numbers::fault::Fault;
use numbers::refusal::Refusal;

// A rule's text, and the number of processes that it may name. The readers borrow it, so that no call copies it.
#[derive(Clone, Copy)]
pub struct Rule<'a> {
    pub text: &'a [u8],
    pub k: u32,
}

// How far a rule is read: the next byte's place, the lines laid down so far, and those of the forms closed so far.
#[derive(Clone, Copy, Debug, PartialEq, Eq)]
pub struct Reached {
    pub place: usize,
    pub laid: usize,
    pub closed: usize,
}

// Goes on if the byte at a place is the one that the grammar has there.
fn expect(text: &[u8], place: usize, byte: u8) -> Result<(), Fault>
    ensures { Expected text.now place byte result }
{
    if byte_at(text, place) == Some(byte) {
        Ok(())
    } else {
        Err(Fault {
            refusal: Refusal::Grammar,
            place,
        })
    }
}

// The digit at a place, below a bound.
fn read_digit(text: &[u8], place: usize, bound: u32) -> Result<usize, Fault>
    ensures { DigitDone place (digit_at text.now place bound) result }
{
    let Some(byte @ b'0'..=b'9') = byte_at(text, place) else {
        return Err(Fault {
            refusal: Refusal::Grammar,
            place,
        });
    };
    let value = byte - b'0';
    if u32::from(value) < bound {
        Ok(usize::from(value))
    } else {
        Err(Fault {
            refusal: Refusal::Atom,
            place,
        })
    }
}

// The closing bracket at a place, of the form that began at `from` and whose lines end before line `end`. They are
// counted with those of the forms closed before it.
fn close(text: &[u8], place: usize, from: Reached, end: usize) -> Result<Reached, Fault>
    requires { (place ≤ 1024) × (from.laid ≤ end) × (end ≤ 200) × (from.closed ≤ 64) }
    ensures { form_read result ≡ close_read text.now place end (from.closed + (end - from.laid)) }
{
    expect(text, place, b')')?;
    let closed = from.closed + (end - from.laid);
    if closed <= 64 {
        Ok(Reached {
            place: place + 1,
            laid: end,
            closed,
        })
    } else {
        Err(Fault {
            refusal: Refusal::TooManyLines,
            place,
        })
    }
}

// (at p b) from after its word on.
fn read_atom(rule: &Rule, from: Reached, table: &mut Table) -> Result<Reached, Fault>
    requires { (from.place ≤ 900) × (from.laid < 200) × (from.closed ≤ 64) }
    ensures { Done from.laid from.closed table.old table.new (atom_at rule.now.text.now rule.now.k from.closed from.place) (form_read result) }
{
    let place = from.place;
    expect(rule.text, place, b' ')?;
    let p = read_digit(rule.text, place + 1, rule.k)?;
    expect(rule.text, place + 2, b' ')?;
    let b = read_digit(rule.text, place + 3, 8)?;
    let end = lay_line(table, from.laid, Kind::Proposition, p, b);
    close(rule.text, place + 4, from, end)
}

// A word alone, from after it on.
fn read_constant(
    rule: &Rule,
    word: Constant,
    from: Reached,
    table: &mut Table,
) -> Result<Reached, Fault>
    requires { (from.place ≤ 900) × (from.laid + 5 ≤ 200) × (from.closed ≤ 64) }
    ensures { Done from.laid from.closed table.old table.new (close_at rule.now.text.now from.closed from.place (constant word)) (form_read result) }
{
    let end = lay_constant(table, word, from.laid);
    close(rule.text, from.place, from, end)
}

// A space and a form inside another. It is compiled into its callers, since apart it copies each answer once more.
#[cycle(reading)]
#[inline(always)]
fn read_inner(
    rule: &Rule,
    allowance: usize,
    from: Reached,
    table: &mut Table,
) -> Result<Reached, Fault>
    requires { Room allowance from.laid from.closed (from.place + 1) table.old }
    ensures { Done from.laid from.closed table.old table.new (inner_with (form_at allowance rule.now.text.now rule.now.k) rule.now.text.now from.closed from.place) (form_read result) }
{
    expect(rule.text, from.place, b' ')?;
    let inside = Reached {
        place: from.place + 1,
        ..from
    };
    read_form(rule, allowance, inside, table)
}

// A word with one form inside, from after the word on.
#[cycle(reading)]
fn read_unary(
    rule: &Rule,
    allowance: usize,
    word: Unary,
    from: Reached,
    table: &mut Table,
) -> Result<Reached, Fault>
    requires { Room allowance (from.laid + 4) from.closed (from.place + 1) table.old }
    ensures { Done from.laid from.closed table.old table.new (unary_with (form_at allowance rule.now.text.now rule.now.k) rule.now.text.now word from.closed from.place) (form_read result) }
{
    let start = Reached {
        laid: lay_before(table, word, from.laid),
        ..from
    };
    let inner = read_inner(rule, allowance, start, table)?;
    let end = lay_after(table, word, from.laid + 3, inner.laid - 1);
    close(rule.text, inner.place, from, end)
}

// A word with two forms inside, from after the word on.
#[cycle(reading)]
fn read_binary(
    rule: &Rule,
    allowance: usize,
    word: Binary,
    from: Reached,
    table: &mut Table,
) -> Result<Reached, Fault>
    requires { Room allowance (from.laid + 4) from.closed (from.place + 1) table.old }
    ensures { Done from.laid from.closed table.old table.new (binary_with (form_at allowance rule.now.text.now rule.now.k) rule.now.text.now word from.closed from.place) (form_read result) }
{
    let first = read_inner(rule, allowance, from, table)?;
    let last = first.laid - 1;
    let start = Reached {
        laid: lay_between(table, word, last),
        ..first
    };
    let second = read_inner(rule, allowance, start, table)?;
    let end = lay_after_both(table, word, last, second.laid - 1);
    close(rule.text, second.place, from, end)
}

// The form at a place, with brackets nested at most as deep as the allowance.
#[cycle(reading)]
pub fn read_form(
    rule: &Rule,
    allowance: usize,
    from: Reached,
    table: &mut Table,
) -> Result<Reached, Fault>
    requires { Room allowance from.laid from.closed from.place table.old }
    ensures { Done from.laid from.closed table.old table.new (form_at allowance rule.now.text.now rule.now.k from.closed from.place) (form_read result) }
{
    expect(rule.text, from.place, b'(')?;
    if allowance == 0 {
        return Err(Fault {
            refusal: Refusal::Nesting,
            place: from.place,
        });
    }
    let less = allowance - 1;
    let (word, place) = read_word(rule.text, from.place + 1)?;
    let inside = Reached { place, ..from };
    match word {
        Word::At => read_atom(rule, inside, table),
        Word::Constant(word) => read_constant(rule, word, inside, table),
        Word::Unary(word) => read_unary(rule, less, word, inside, table),
        Word::Binary(word) => read_binary(rule, less, word, inside, table),
    }
}
