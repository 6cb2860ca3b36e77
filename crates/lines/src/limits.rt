// The limits on the numbers in a line (01, Turned back, from the input: 10).

// k, the number of processes. It is not the limit on a process's own number, below.
pub(crate) const K_LIMIT: u64 = 65535;
// Clock counts: those of 32 bits (02 [6]).
pub(crate) const COUNT_LIMIT: u64 = 4294967295;
// What every count is below: the base of counts in a word.
pub(crate) const COUNT_BASE: u64 = COUNT_LIMIT + 1;
// Label bytes.
pub(crate) const LABEL_LIMIT: u64 = 255;
// Process numbers.
pub(crate) const PROCESS_LIMIT: u64 = 7;
// Frontiers in a window.
pub(crate) const ROOM_LIMIT: u64 = 1024;
