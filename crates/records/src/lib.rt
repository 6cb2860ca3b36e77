// The record of a watch, bytes that the caller lends.

#![tactic(auto)]

// The record's fields, read.
pub mod fields;
