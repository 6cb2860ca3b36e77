// Open, take and close of a watch that shares a pool (02 [10]): the plain calls, lent the pool and the watch's number.

#![tactic(auto)]

// What the pool refuses, and its number of frontiers kept after a call.
// By hand, as no plainer: open, take and close go alike, but each has other parameters and promises; one function for
// them would have to be lent every buffer and promise of a closure what each now says of its own call.
pub mod closing;
pub mod lent;
pub mod opening;
pub mod taking;
