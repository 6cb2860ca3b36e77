// Laying lines down in a table.

ghost use Rattle.std.specs.Prelude.{◌+◌, ◌≤◌, ◌<◌, ◌≡◌, [], ◌∷◌, length};
ghost use Rattle.rules.specs.Line.{true_lines, constant_lines, lines_before, lines_after, lines_between, lines_after_both};
ghost use Rattle.rules.specs.KindNumber.{kind_number};
ghost use Rattle.rules.specs.Laying.{Laid, has_true};
ghost use Rattle.pactl.specs.Line.{line, not_line};

use crate::{Binary, Constant, Unary};

// Room for the lines that are laid down before a rule is found too long: three bytes for each.
pub type Table = [u8; 600];

// The kinds of line.
#[derive(Clone, Copy, Debug, PartialEq, Eq)]
pub enum Kind {
    Proposition,
    Not,
    And,
    Ey,
    Es,
    As,
}

impl From<Kind> for u8 {
    ghost from_gives = { λ kind number. number ≡ kind_number kind };

    fn from(kind: Kind) -> u8 {
        match kind {
            Kind::Proposition => 0,
            Kind::Not => 1,
            Kind::And => 2,
            Kind::Ey => 3,
            Kind::Es => 4,
            Kind::As => 5,
        }
    }
}

// Lays a line down as line n of a table. This one, and each below, answers the number of lines that are then laid down.
// By hand, as promised: the kind is a number, since a line of any kind may be laid down.
// By hand, as no plainer: n stands beside the table as the later lines name the earlier ones by it.
pub fn put_line(table: &mut Table, n: usize, kind: u8, a: usize, b: usize) -> usize
    requires { (n < 200) × (a < 200) × (b < 200) }
    ensures { Laid n 1 (line kind a b ∷ []) table.old table.new result }
{
    let at = 3 * n;
    table[at] = kind;
    table[at + 1] = a as u8;
    table[at + 2] = b as u8;
    n + 1
}

// Lays a line of one of the six kinds down.
pub fn lay_line(table: &mut Table, n: usize, kind: Kind, a: usize, b: usize) -> usize
    requires { (n < 200) × (a < 200) × (b < 200) }
    ensures { Laid n 1 (line (kind_number kind) a b ∷ []) table.old table.new result }
{
    put_line(table, n, u8::from(kind), a, b)
}

// The lines of true, from line n on.
fn lay_true(table: &mut Table, n: usize) -> usize
    requires { n + 4 ≤ 200 }
    ensures { Laid n 4 (true_lines n) table.old table.new result }
{
    let second = lay_line(table, n, Kind::Proposition, 0, 0);
    let third = lay_line(table, second, Kind::Not, n, 0);
    let fourth = lay_line(table, third, Kind::And, n, second);
    lay_line(table, fourth, Kind::Not, third, 0)
}

// The lines of a word alone, from line n on.
pub fn lay_constant(table: &mut Table, word: Constant, n: usize) -> usize
    requires { n + 5 ≤ 200 }
    ensures { Laid n 5 (constant_lines word n) table.old table.new result }
{
    let end = lay_true(table, n);
    match word {
        Constant::True => end,
        Constant::False => lay_line(table, end, Kind::Not, n + 3, 0),
    }
}

// Whether a word with one form has the lines of true before that form's.
#[tactic(auto, unfolding(crate::specs::Laying::has_true))]
fn has_true(word: Unary) -> bool
    ensures { result ≡ has_true word }
{
    matches!(word, Unary::Eh | Unary::Ah | Unary::Ep | Unary::Ap)
}

// The lines before the form inside a word with one form.
pub fn lay_before(table: &mut Table, word: Unary, n: usize) -> usize
    requires { n + 4 ≤ 200 }
    ensures { Laid n 4 (lines_before word n) table.old table.new result }
{
    if has_true(word) {
        lay_true(table, n)
    } else {
        n
    }
}

// Not line `last`, a line, and not that one, behind `last`.
fn lay_negated(table: &mut Table, last: usize, kind: Kind, a: usize, b: usize) -> usize
    requires { (last + 4 ≤ 200) × (a < 200) × (b < 200) }
    ensures { Laid (last + 1) 3 (not_line last ∷ line (kind_number kind) a b ∷ not_line (last + 2) ∷ []) table.old table.new result }
{
    let second = lay_line(table, last + 1, Kind::Not, last, 0);
    let third = lay_line(table, second, kind, a, b);
    lay_line(table, third, Kind::Not, second, 0)
}

// The lines after that form's. Its last line is `last`, and that of true is `truth`.
pub fn lay_after(table: &mut Table, word: Unary, truth: usize, last: usize) -> usize
    requires { (truth < 200) × (last + 4 ≤ 200) }
    ensures { Laid (last + 1) 3 (lines_after word truth last) table.old table.new result }
{
    let n = last + 1;
    match word {
        Unary::Not => lay_line(table, n, Kind::Not, last, 0),
        Unary::Ey => lay_line(table, n, Kind::Ey, last, 0),
        Unary::Ep => lay_line(table, n, Kind::Es, truth, last),
        Unary::Ap => lay_line(table, n, Kind::As, truth, last),
        Unary::Ay => lay_negated(table, last, Kind::Ey, n, 0),
        Unary::Eh => lay_negated(table, last, Kind::As, truth, n),
        Unary::Ah => lay_negated(table, last, Kind::Es, truth, n),
    }
}

// The lines between the forms inside a word with two forms. The first form's last line is `last`.
pub fn lay_between(table: &mut Table, word: Binary, last: usize) -> usize
    requires { last + 2 ≤ 200 }
    ensures { Laid (last + 1) 1 (lines_between word last) table.old table.new result }
{
    let n = last + 1;
    match word {
        Binary::And => n,
        Binary::Es => n,
        Binary::As => n,
        Binary::Or => lay_line(table, n, Kind::Not, last, 0),
    }
}

// The lines after both. Their last lines are `first` and `last`.
pub fn lay_after_both(table: &mut Table, word: Binary, first: usize, last: usize) -> usize
    requires { (first < last) × (last + 4 ≤ 200) }
    ensures { Laid (last + 1) 3 (lines_after_both word first last) table.old table.new result }
{
    let n = last + 1;
    match word {
        Binary::And => lay_line(table, n, Kind::And, first, last),
        Binary::Es => lay_line(table, n, Kind::Es, first, last),
        Binary::As => lay_line(table, n, Kind::As, first, last),
        Binary::Or => lay_negated(table, last, Kind::And, first + 1, n),
    }
}
