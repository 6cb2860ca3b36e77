// The order of frontiers, and the look-up of counts among them.

#![tactic(auto)]

pub mod order;
pub mod seek;
