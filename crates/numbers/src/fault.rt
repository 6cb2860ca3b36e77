// What is wrong with a text, and where (01, Turned back, from the input).

use crate::refusal::Refusal;

// The first fault of a rule or of a line: what it is turned back with, and the byte's place.
#[derive(Clone, Copy, Debug, PartialEq, Eq, Hash)]
pub struct Fault {
    pub refusal: Refusal,
    pub place: usize,
}
