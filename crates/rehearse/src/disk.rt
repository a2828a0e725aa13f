// The disk of a rehearsal: a device in a vector, and the cuts of power that are still to come.
use console::{Disk, Stop};
use device::vector::Vector;
use std::alloc::{AllocError, Global};

// Power fails after so many asks more; the seed chooses what is kept.
#[derive(Clone, Copy)]
struct Planned {
    asks: u64,
    seed: u64,
}

#[derive(Drop)]
pub struct CutDisk {
    vector: Vector,
    planned: Vec<Planned>,
}

impl CutDisk {
    pub fn blank(heap: Global, sectors: u64) -> Result<CutDisk, AllocError> {
        Ok(CutDisk {
            vector: Vector::blank(sectors as usize, heap)?,
            planned: Vec::new(heap),
        })
    }

    // Power is to fail after so many asks.
    pub fn plan(&mut self, asks: u64, seed: u64) -> Result<(), Stop> {
        self.planned.push(Planned { asks, seed })?;
        Ok(())
    }

    // How many cuts are still to come.
    pub fn planned(&self) -> usize {
        self.planned.len()
    }

    // Power fails now.
    pub fn cut(&mut self, seed: u64) {
        self.vector.cut(seed);
    }

    // One thing was asked: power fails where a plan runs out.
    fn count(&mut self) -> Result<(), Stop> {
        let mut served = Ok(());
        for plan in self.planned.iter_mut() {
            plan.asks = plan.asks.saturating_sub(1);
            if plan.asks == 0 {
                self.vector.cut(plan.seed);
                served = Err(Stop::Cut);
            }
        }
        if served.is_err() {
            self.planned.retain(|plan| plan.asks > 0);
        }
        served
    }
}

impl Disk for CutDisk {
    fn read(&mut self, sector: u64, into: &mut [u8; 512]) -> Result<(), Stop> {
        *into = self.vector.read(sector as usize);
        self.count()
    }

    fn write(&mut self, sector: u64, bytes: &[u8; 512]) -> Result<(), Stop> {
        self.vector.write(sector as usize, bytes)?;
        self.count()
    }

    fn sync(&mut self) -> Result<(), Stop> {
        self.vector.sync();
        self.count()
    }
}
