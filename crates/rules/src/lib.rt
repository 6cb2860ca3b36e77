// The rule language: reading a rule's text to a table of lines.

#![tactic(auto)]

pub mod forms;
pub mod laying;
pub mod reading;
pub mod words;

// The words of a form, by the number of forms inside it.
#[derive(Clone, Copy, Debug, PartialEq, Eq)]
pub enum Constant {
    True,
    False,
}

#[derive(Clone, Copy, Debug, PartialEq, Eq)]
pub enum Unary {
    Not,
    Ey,
    Ep,
    Ap,
    Ay,
    Eh,
    Ah,
}

#[derive(Clone, Copy, Debug, PartialEq, Eq)]
pub enum Binary {
    And,
    Es,
    As,
    Or,
}
