// The program's lines: a line's bytes read to what it says, or to its fault.

#![tactic(auto)]

// The limits on numbers.
mod limits;
// Numbers in words.
mod words;
// The line that opens: processes and room.
pub mod watch;
// The rule's line.
pub mod rule;
// The line with the start labels.
pub mod start;
// An event's line.
pub mod did;
