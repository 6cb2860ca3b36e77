// PaCTL by tables of lines: a table's check, and judging a frontier by it.

#![tactic(auto)]

pub mod judging;
pub mod table;

// A line of a rule's table. By hand, for C: a line is three bytes of the record that C lends, where the kind may be any
// byte.
#[derive(Clone, Copy)]
pub struct Line {
    pub kind: u8,
    pub a: u8,
    pub b: u8,
}
