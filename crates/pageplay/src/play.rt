// Pages on a device in memory, played against the model.
use crate::drive::{Asks, Tower, run};
use crate::model::{Model, PAGES, page};
use device::Store;
use device::vector::Vector;
use pages::{PageCall, Reply};
use std::alloc::{AllocError, Global};
use std::fmt;

// How many sectors the device has.
const SECTORS: u64 = 4096;

// What was done, and how often an answer was not the model's.
#[derive(Clone, Copy, Default)]
pub struct Done {
    puts: u64,
    gets: u64,
    commits: u64,
    undos: u64,
    cuts: u64,
    wrong: u64,
}

impl fmt::Display for Done {
    fn fmt<W: fmt::Write>(&self, f: &mut fmt::Formatter<W>) -> fmt::Result {
        write!(
            f,
            "puts {}, gets {}, commits {}, undos {}, cuts {}, wrong {}",
            self.puts, self.gets, self.commits, self.undos, self.cuts, self.wrong
        )
    }
}

// A store on its device, the model beside it, and the numbers to choose by.
#[derive(Drop)]
pub struct Play {
    store: Tower,
    disk: Vector,
    model: Model,
    state: u64,
    done: Done,
}

impl Play {
    pub fn start(heap: Global, seed: u64) -> Result<Play, AllocError> {
        let disk = Vector::blank(SECTORS as usize, heap)?;
        let store = pages::open(heap, SECTORS)?;
        let mut play = Play {
            store,
            disk,
            model: Model::blank(),
            state: seed,
            done: Done::default(),
        };
        play.finish(1000)?;
        Ok(play)
    }

    pub fn done(&self) -> Done {
        self.done
    }

    // The next number to choose by.
    fn next(&mut self) -> u64 {
        self.state = self
            .state
            .wrapping_mul(6364136223846793005)
            .wrapping_add(1442695040888963407);
        self.state / 4294967296
    }

    // Up to so many steps of what is under way.
    fn finish(&mut self, steps: u32) -> Result<(Option<Reply>, Asks), AllocError> {
        run(&mut self.store, &mut self.disk, steps)
    }

    // A call that the model answers in the same way.
    fn call(&mut self, call: PageCall, bytes: &[u8], right: Reply) -> Result<Asks, AllocError> {
        self.store.call(call, bytes);
        let (reply, asks) = self.finish(100000)?;
        self.expect(reply == Some(right));
        Ok(asks)
    }

    // Counts what is not as the model has it.
    fn expect(&mut self, right: bool) {
        if !right {
            self.done.wrong = self.done.wrong.wrapping_add(1);
        }
    }

    // Whether the page that is shown is as the model has it now.
    fn shows(&self, n: usize) -> bool {
        self.model.shows(n, self.store.shown())
    }

    fn get(&mut self, n: usize) -> Result<(), AllocError> {
        self.call(PageCall::Get(n as u64), &[], Reply::Page)?;
        let right = self.shows(n);
        self.expect(right);
        self.done.gets = self.done.gets.wrapping_add(1);
        Ok(())
    }

    pub fn put(&mut self, n: usize, version: u64) -> Result<Asks, AllocError> {
        let asks = self.call(PageCall::Put(n as u64), &page(n, version), Reply::Done)?;
        self.model.put(n, version);
        self.done.puts = self.done.puts.wrapping_add(1);
        Ok(asks)
    }

    fn vacant(&mut self, n: usize) -> Result<(), AllocError> {
        let found = Some(self.model.vacant(n) as u64);
        self.call(PageCall::Vacant(n as u64), &[], Reply::Found(found))?;
        Ok(())
    }

    pub fn commit(&mut self) -> Result<Asks, AllocError> {
        let asks = self.call(PageCall::Commit, &[], Reply::Done)?;
        self.model.commit();
        self.done.commits = self.done.commits.wrapping_add(1);
        Ok(asks)
    }

    fn undo(&mut self) -> Result<(), AllocError> {
        self.call(PageCall::Undo, &[], Reply::Done)?;
        self.model.undo();
        self.done.undos = self.done.undos.wrapping_add(1);
        Ok(())
    }

    // Whether a page that was changed is as it is now, and not as committed: then the commit that was cut was done.
    fn is_new(&mut self) -> Result<bool, AllocError> {
        let n = self.model.changed().unwrap_or(0);
        self.store.call(PageCall::Get(n as u64), &[]);
        self.finish(1000)?;
        Ok(self.shows(n))
    }

    // Power fails so many asks after a commit began; then it comes up, and all pages are looked at.
    fn cut(&mut self, heap: Global, asks: u32, choice: u64) -> Result<(), AllocError> {
        self.store.call(PageCall::Commit, &[]);
        self.finish(asks)?;
        self.disk.cut(choice);
        self.store = pages::open(heap, SECTORS)?;
        self.finish(1000)?;
        if self.is_new()? {
            self.model.commit();
        } else {
            self.model.undo();
        }
        for n in 0..PAGES {
            self.get(n)?;
        }
        self.done.cuts = self.done.cuts.wrapping_add(1);
        Ok(())
    }

    pub fn round(&mut self, heap: Global) -> Result<(), AllocError> {
        let kind = self.next() % 100;
        let n = (self.next() % 200) as usize;
        let version = self.next() % 5;
        match kind {
            0..=54 => {
                self.put(n, version)?;
                Ok(())
            }
            55..=84 => self.get(n),
            85..=89 => self.vacant(n),
            90..=93 => {
                self.commit()?;
                Ok(())
            }
            94..=96 => self.undo(),
            _ => {
                let asks = (self.next() % 900) as u32;
                let choice = self.next();
                self.cut(heap, asks, choice)
            }
        }
    }
}
