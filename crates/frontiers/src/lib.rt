// Frontiers in bytes: reading and writing them.

#![tactic(auto)]

pub mod counts;
pub mod listed;
pub mod moving;
pub mod place;
pub mod stored;
pub mod width;

// A kept cut: its counts, each process's labels and the mask of its last event there, and the truth of each line.
#[derive(Clone, Copy)]
pub struct Frontier {
    pub counts: [u32; 8],
    pub labels: [u8; 8],
    pub masks: [u8; 8],
    pub values: u64,
}
