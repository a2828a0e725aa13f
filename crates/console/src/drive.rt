// The loop that does what the engine asks, one thing after the other, until it answers.
use crate::answers::push_value;
use device::Ask;
use session::{Engine, Reply};
use std::alloc::{AllocError, AllocFailed};
use std::io;

// Why a call has no answer.
#[derive(Drop)]
pub enum Stop {
    // the power has failed
    Cut,
    Failed(io::Error),
}

impl From<io::Error> for Stop {
    fn from(error: io::Error) -> Stop {
        Stop::Failed(error)
    }
}

impl From<AllocError> for Stop {
    fn from(error: AllocError) -> Stop {
        Stop::Failed(io::Error::from(error))
    }
}

impl<T: Drop> From<AllocFailed<T>> for Stop {
    fn from(refused: AllocFailed<T>) -> Stop {
        Stop::from(AllocError::from(refused))
    }
}

// What serves the engine: sectors by number.
pub trait Disk {
    fn read(&mut self, sector: u64, into: &mut [u8; 512]) -> Result<(), Stop>;

    fn write(&mut self, sector: u64, bytes: &[u8; 512]) -> Result<(), Stop>;

    // All that was written lasts from here on.
    fn sync(&mut self) -> Result<(), Stop>;
}

// Steps the engine until it answers; the values that it hands over stand in `row` then.
pub fn answer<D: Disk>(
    engine: &mut Engine,
    disk: &mut D,
    row: &mut Vec<u8>,
) -> Result<Reply, Stop> {
    row.clear();
    let mut given = [0; 512];
    // kept: (d) a count that is not reached: that a call ends is proved of whole runs, and not by a number that a loop could count down
    for _ in 0..u64::MAX {
        match engine.step(&given) {
            Ask::Read(sector) => disk.read(sector, &mut given)?,
            Ask::Write(sector) => disk.write(sector, engine.buffer())?,
            Ask::Sync => disk.sync()?,
            Ask::Again => {}
            Ask::Hand(value) => push_value(row, value, engine.shown())?,
            Ask::Answer(reply) => return Ok(reply),
        }
    }
    Err(Stop::Cut)
}
