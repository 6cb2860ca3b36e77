// The stored form of the program's watches: counts of four bytes (02 [6]), and the lengths that go by it.

// A count.
pub const WIDTH: usize = 4;
// A frontier: 56.
pub const FRONTIER_BYTES: usize = 8 * WIDTH + 24;
// A record: 2,024.
pub const RECORD_BYTES: usize = 200 + 72 * WIDTH + 32 * (8 * WIDTH + 16);
// The longest window: 57,344.
pub const WINDOW_BYTES: usize = 1024 * FRONTIER_BYTES;
