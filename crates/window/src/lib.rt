// A window of the kept cuts: which of them stay, which an event leads on from, and how many there are then.

#![tactic(auto)]

pub mod kept;
pub mod prepared;
