// A file as the disk: it is read a page ahead, and writes to neighbouring sectors are gathered up to the next sync, no
// further. Before anything is read all of it is made lasting, since an earlier run may have been killed before its sync.
use console::{Disk, SECTOR, Stop};
use std::fs::{File, OpenFile, OpenOptions};
use std::io;
use std::io::{Read, Seek, SeekFrom, Write};

// Sectors that are read at once.
const AHEAD: u64 = 8;

// Bytes that are gathered at most.
const GATHERED: usize = 65536;

#[derive(Drop)]
pub struct FileDisk {
    file: File,
    len: u64,
    // sectors read ahead, and the first of them
    page: [u8; 4096],
    page_at: Option<u64>,
    // sectors to be written, and the first of them
    gathered: Vec<u8>,
    gathered_at: u64,
}

impl FileDisk {
    // Opens a file for reading and writing; it is never made or made longer.
    pub fn open(rt: &HostRuntime, path: &str) -> io::Result<FileDisk> {
        let file = OpenOptions::new().read(true).write(true).open(rt, path)?;
        let len = file.metadata()?.len();
        file.sync_data()?;
        Ok(FileDisk {
            file,
            len,
            page: [0; 4096],
            page_at: None,
            gathered: Vec::new(rt.alloc()),
            gathered_at: 0,
        })
    }

    pub fn bytes(&self) -> u64 {
        self.len
    }

    // How many sectors it has, if it has no part of one.
    pub fn sectors(&self) -> Option<u64> {
        (self.len % SECTOR == 0).then_some(self.len / SECTOR)
    }

    // Writes what was gathered.
    fn flush(&mut self) -> io::Result<()> {
        if self.gathered.is_empty() {
            return Ok(());
        }
        self.file
            .seek(SeekFrom::Start(self.gathered_at.saturating_mul(SECTOR)))?;
        self.file.write_all(self.gathered.as_slice())?;
        self.gathered.clear();
        Ok(())
    }

    // Reads the page of a sector, or as much of it as the device has.
    fn load(&mut self, first: u64) -> io::Result<()> {
        self.page_at = None;
        let count = (self.len / SECTOR).saturating_sub(first).min(AHEAD);
        self.file
            .seek(SeekFrom::Start(first.saturating_mul(SECTOR)))?;
        read_some(&mut self.file, &mut self.page, count)?;
        self.page_at = Some(first);
        Ok(())
    }

    // Does a sector follow those that were gathered?
    fn follows(&self, sector: u64) -> bool {
        let len = self.gathered.len();
        if len == 0 || len >= GATHERED {
            return false;
        }
        self.gathered_at.checked_add(len as u64 / SECTOR) == Some(sector)
    }
}

fn read_some(file: &mut File, page: &mut [u8; 4096], count: u64) -> io::Result<()> {
    if count < AHEAD {
        let end = count as usize * 512;
        return file.read_exact(&mut page[..end]);
    }
    file.read_exact(page)
}

// One sector of a page.
fn copy_sector(page: &[u8; 4096], at: u64, into: &mut [u8; 512]) {
    let from = (at % AHEAD) as usize * 512;
    into.copy_from_slice(&page[from..from + 512]);
}

impl Disk for FileDisk {
    fn read(&mut self, sector: u64, into: &mut [u8; 512]) -> Result<(), Stop> {
        self.flush()?;
        let first = sector - sector % AHEAD;
        if self.page_at != Some(first) {
            self.load(first)?;
        }
        copy_sector(&self.page, sector, into);
        Ok(())
    }

    fn write(&mut self, sector: u64, bytes: &[u8; 512]) -> Result<(), Stop> {
        self.page_at = None;
        if !self.follows(sector) {
            self.flush()?;
            self.gathered_at = sector;
        }
        self.gathered.extend_from_slice(bytes)?;
        Ok(())
    }

    fn sync(&mut self) -> Result<(), Stop> {
        self.flush()?;
        self.file.sync_data()?;
        Ok(())
    }
}
