// Limits (01, Clocks and cuts; The rule; The window; 02 [8], [10]). Lengths in bytes go by the width of a count: see
// frontiers Bytes, records Record.

// Processes of a watch.
pub const PROCESSES: u64 = 8;
// Frontiers of a window.
pub const FRONTIERS: usize = 1024;
// Lines of a table.
pub const LINES: u32 = 64;
// Pending events of a record.
pub const PENDING: usize = 32;
// Events of a busiest day.
pub const DAY_EVENTS: u64 = 65535;
// Watches that share a pool.
pub const MEMBERS: usize = 8;
