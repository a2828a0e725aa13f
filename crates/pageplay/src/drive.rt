// Serves what a store asks for, and counts it.
use device::vector::Vector;
use device::{Ask, Over, Store};
use pager::Pager;
use pages::{Frames, Reply};
use std::alloc::{AllocError, Global};
use std::fmt;
use std::ops::Add;

// Pages on a device.
pub type Tower = Over<Pager, Frames>;

// How often a device was asked for what.
#[derive(Clone, Copy, Default)]
pub struct Asks {
    reads: u64,
    writes: u64,
    syncs: u64,
}

impl Asks {
    fn count<V, R>(&mut self, ask: &Ask<V, R>) {
        match ask {
            Ask::Read(_) => self.reads = self.reads.wrapping_add(1),
            Ask::Write(_) => self.writes = self.writes.wrapping_add(1),
            Ask::Sync => self.syncs = self.syncs.wrapping_add(1),
            Ask::Again | Ask::Hand(_) | Ask::Answer(_) => {}
        }
    }
}

impl Add for Asks {
    type Output = Asks;

    fn add(self, other: Asks) -> Asks {
        Asks {
            reads: self.reads.wrapping_add(other.reads),
            writes: self.writes.wrapping_add(other.writes),
            syncs: self.syncs.wrapping_add(other.syncs),
        }
    }
}

impl fmt::Display for Asks {
    fn fmt<W: fmt::Write>(&self, f: &mut fmt::Formatter<W>) -> fmt::Result {
        write!(
            f,
            "sectors read {}, written {}, syncs {}",
            self.reads, self.writes, self.syncs
        )
    }
}

// Up to so many steps of a store on a device.
pub fn run(
    store: &mut Tower,
    disk: &mut Vector,
    steps: u32,
) -> Result<(Option<Reply>, Asks), AllocError> {
    let mut given = [0; 512];
    let mut asks = Asks::default();
    for _ in 0..steps {
        let ask = store.step(&given);
        asks.count(&ask);
        match ask {
            Ask::Read(sector) => given = disk.read(sector as usize),
            Ask::Write(sector) => disk.write(sector as usize, store.buffer())?,
            Ask::Sync => disk.sync(),
            Ask::Again | Ask::Hand(_) => {}
            Ask::Answer(reply) => return Ok((Some(reply), asks)),
        }
    }
    Ok((None, asks))
}

// What coming up asks for, on a blank device of any size.
pub fn opening(heap: Global, size: u64) -> Result<Asks, AllocError> {
    let mut store = pages::open(heap, size)?;
    let mut asks = Asks::default();
    for _ in 0..100000 {
        let ask = store.step(&[0; 512]);
        asks.count(&ask);
        if let Ask::Answer(_) = ask {
            break;
        }
    }
    Ok(asks)
}
