// The numbers that the scope gives.

#![tactic(auto)]

// What is wrong with a text, and where.
pub mod fault;
// What a call or a line is turned back with.
pub mod refusal;
// How much there may be of a thing.
pub mod limit;
