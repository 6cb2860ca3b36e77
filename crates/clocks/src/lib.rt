// Events and vector clocks.

#![tactic(auto)]

// What an event is turned back for.
pub mod refusal;
// When an event may be taken, and where it leads.
pub mod step;
// The join of clocks.
pub mod join;
// The order of the pending events.
pub mod order;

// An event as a process reports it (01, Clocks and cuts: event).
#[derive(Clone, Copy, PartialEq, Eq)]
pub struct Event {
    pub mask: u8,
    pub clock: [u32; 8],
    pub labels: [u8; 8],
}

// An event's place in the order of the pending events (01, The window: held events).
#[derive(Clone, Copy, PartialEq, Eq, PartialOrd, Ord)]
pub struct Key {
    pub process: u32,
    pub count: u32,
}
