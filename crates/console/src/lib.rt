// What the programs share: statements read as lines of bytes, answers as lines of text, and the loop that does what the
// engine asks on a disk. A disk is a file or a vector; what it does is not proved here, since no contract can say what a file
// holds. The text of an answer is.
#![tactic(auto)]

pub mod answers;
pub mod drive;
pub mod lines;
#[cfg(test)]
mod tests;

pub use drive::{Disk, Stop};

// Bytes of a sector.
pub const SECTOR: u64 = 512;
