// A device in memory, for rehearsals: its sectors in a vector, and what was written since the last sync.
ghost use Rattle.std.specs.Option.{option_map};
ghost use Rattle.std.specs.Prelude.{◌≡◌, ℕ, ◌<◌, IfOk, vec_len, OnOk};
ghost use Rattle.device.specs.Device.{shown, written, synced, AfterCut};
ghost use Rattle.device.specs.Vector.{device_of, Agrees, Blank, Kept, KeptAll, KeptSome, newest_of};

use std::alloc::{AllocError, Global};

#[derive(Clone, Copy)]
pub struct Written {
    pub sector: usize,
    pub bytes: [u8; 512],
}

#[derive(Drop)]
pub struct Vector {
    kept: Vec<[u8; 512]>,
    since: Vec<Written>,
}

// The last write to a sector, if there was any.
fn newest(since: &[Written], sector: usize) -> Option<&Written>
    ensures { option_map (λ w. w.now) result ≡ newest_of sector since.now }
{
    since.iter().rev().find(|w| w.sector == sector)
}

// Keeps a write to a sector that is there.
fn keep(kept: &mut [[u8; 512]], w: &Written)
    ensures { Kept kept.old w.now kept.new }
{
    let bytes = w.bytes;
    if w.sector < kept.len() {
        kept[w.sector] = bytes;
    }
}

// Keeps writes in their order.
fn keep_all(kept: &mut [[u8; 512]], since: &[Written])
    ensures { KeptAll kept.old since.now kept.new }
{
    for w in since {
        keep(kept, w);
    }
}

// Keeps those of the writes that the seed chooses.
fn keep_some(kept: &mut [[u8; 512]], since: &[Written], seed: u64)
    ensures { KeptSome kept.old since.now kept.new }
{
    let mut state = seed;
    for w in since {
        state = state
            .wrapping_mul(6364136223846793005)
            .wrapping_add(1442695040888963407);
        if state / 9223372036854775808 == 1 {
            keep(kept, w);
        }
    }
}

impl Vector {
    // A blank device of so many sectors.
    pub fn blank(size: usize, heap: Global) -> Result<Vector, AllocError>
        ensures { IfOk result (λ v. Blank size v) }
    {
        let mut kept = Vec::new(heap);
        // kept: (c) each sector pushed: by `vec!` a proof doesn't know that the clone of an array is that array
        for _ in 0..size {
            kept.push([0; 512])?;
        }
        Ok(Vector {
            kept,
            since: Vec::new(heap),
        })
    }

    // What a sector shows.
    pub fn read(&self, sector: usize) -> [u8; 512]
        ensures { sector < vec_len self.now.kept → result ≡ shown (device_of self.now) sector }
    {
        match newest(&self.since, sector) {
            Some(w) => w.bytes,
            None if sector < self.kept.len() => self.kept[sector],
            None => [0; 512],
        }
    }

    pub fn write(&mut self, sector: usize, bytes: &[u8; 512]) -> Result<(), AllocError>
        ensures size { vec_len self.new.kept ≡ vec_len self.old.kept }
        ensures is { OnOk result (Agrees self.new (written sector bytes.now (device_of self.old))) }
    {
        self.since.push(Written {
            sector,
            bytes: *bytes,
        })?;
        Ok(())
    }

    pub fn sync(&mut self)
        ensures size { vec_len self.new.kept ≡ vec_len self.old.kept }
        ensures is { Agrees self.new (synced (device_of self.old)) }
    {
        keep_all(&mut self.kept, &self.since);
        self.since.clear();
    }

    // Power fails: of what was written since the last sync, the seed chooses what is kept.
    pub fn cut(&mut self, seed: u64)
        ensures size { vec_len self.new.kept ≡ vec_len self.old.kept }
        ensures is { AfterCut (device_of self.old) (device_of self.new) }
    {
        keep_some(&mut self.kept, &self.since, seed);
        self.since.clear();
    }
}
