// The pieces of a program's line, read from left to right: its bytes, numbers and lists of numbers.

#![tactic(auto)]

ghost use Rattle.std.specs.Prelude.{◌≡◌};

// Numbers, from their digits.
pub mod number;
// A line's pieces, from left to right.
pub mod reading;
// Lists of numbers.
pub mod list;

use numbers::fault::Fault;

// Where a reading stands, with the number read last.
#[derive(Clone, Copy, Debug, PartialEq, Eq)]
pub struct Here {
    pub place: usize,
    pub value: u64,
}

// A list read: its first eight numbers, and where the reading stands after it, with how many they are in all.
#[derive(Clone, Copy, Debug, PartialEq, Eq)]
pub struct Numbers {
    pub values: [u64; 8],
    pub here: Here,
}

// A list with a fault: the first eight of the numbers before it, and the fault.
#[derive(Clone, Copy, Debug, PartialEq, Eq)]
pub struct BadList {
    pub values: [u64; 8],
    pub fault: Fault,
}

impl From<BadList> for Fault {
    ghost from_gives = { λ bad fault. fault ≡ bad.fault };

    fn from(bad: BadList) -> Fault {
        bad.fault
    }
}
