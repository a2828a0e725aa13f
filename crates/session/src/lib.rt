// The engine: what people say to the tables, answered on a device. It does no input or output; it asks for one thing at a
// time, and a driver does what is asked, on a file, in memory or in firmware.
//
//     let mut engine = Engine::open(heap, size)?; a store for a device of so many sectors, yet to come up
//     engine.step(&given) until Ask::Answer       it comes up by its own reading
//     engine.say(text) or engine.next()           begins a call
//     engine.step(&given) until Ask::Answer       `given` is the sector that was read last
//
// Asks: Read and Write name a sector, and the bytes to write stand in `buffer`; Sync wants all writes to be lasting before
// the next step; Again wants nothing; Hand gives a value of a row, whose text stands in `shown` until the next step; Answer
// ends the call. Power may fail between any two asks: make a new engine then, and step it until it answers.
//
// What is promised of it is `Whole`, on the contract of `Engine::open`: every answer over every list of calls and cuts is
// one that the written meaning gives, nothing outside the device is asked for, and every call ends. It stands on `meaning`,
// on `device` (what a device, a cut and a layer are), and on the specification of `pages`.
#![tactic(auto)]

ghost use Rattle.std.specs.Prelude.{◌≡◌, ℕ, []};
ghost use Rattle.device.specs.Device.{and};
ghost use Rattle.session.specs.Promise.{engine_of, EngineWhole, OpenedBy};
ghost use Rattle.session.specs.declared.Unopened.TheVariants.{Memory};

use device::{Ask, Layer, Over, Store};
use pager::Pager;
use pages::Frames;
use std::alloc::{AllocError, Global};

pub mod refusal;
pub mod statement;

pub use refusal::Refusal;
use statement::Session;

// What is said to the engine; a statement's text goes with the call.
#[derive(Clone, Copy, Debug, PartialEq, Eq)]
pub enum Call {
    Say,
    Next,
}

// A value of a row; the bytes of a text stand beside it, in what the engine shows.
#[derive(Clone, Copy, Debug, PartialEq, Eq)]
pub enum Value {
    Null,
    Number(i64),
    Text,
}

// What a call is answered by.
// kept: (d) refusals are variants and no Err: each is an answer that is printed, and nothing goes on after one with `?`
#[derive(Clone, Copy, Debug, PartialEq, Eq)]
pub enum Reply {
    // refused, by number; nothing has changed
    // kept: (d) the number and no Refusal: it is what a reply says, and a reply may say any; what the engine says is one of a Refusal
    No(u8),
    // done, and so many rows were inserted, changed or deleted
    Done(u64),
    // a query runs: `next` gives its rows
    Begun,
    // a row; its values were handed over
    Row,
    // the query has no more rows
    End,
    // no room on the device; nothing has changed
    Full,
}

// Why there is no engine.
#[derive(Clone, Copy, Debug, PartialEq, Eq)]
pub enum Unopened {
    // the device has fewer than 4,096 or more than 2^40 sectors
    Size,
    // there is not the memory that it will need
    Memory,
}

impl From<AllocError> for Unopened {
    ghost from_gives = { λ _ result. result ≡ Memory };

    fn from(_error: AllocError) -> Unopened {
        Unopened::Memory
    }
}

#[derive(Drop)]
pub struct Engine {
    tower: Over<Over<Pager, Frames>, Session>,
}

impl Engine {
    // The engine for a device of so many sectors, yet to come up. All memory that it will ever need is taken here.
    #[tactic(auto, using(crate::proofs::Keeps::engine_whole))]
    pub fn open(heap: Global, size: u64) -> Result<Engine, Unopened>
        ensures opened { OpenedBy size result }
        ensures whole { EngineWhole }
    {
        if size < 4096 || size > 1099511627776 {
            return Err(Unopened::Size);
        }
        let pages = pages::open(heap, size)?;
        let session = Session::new(heap)?;
        Ok(Engine {
            tower: Over::opening(pages, session),
        })
    }

    // Begins a statement; a query that runs ends.
    pub fn say(&mut self, text: &[u8])
        ensures { engine_of.Begins self.old (and Call.Say text.now) self.new }
    {
        self.tower.call(Call::Say, text);
    }

    // Asks for the next row of the query that runs.
    pub fn next(&mut self)
        ensures { engine_of.Begins self.old (and Call.Next []) self.new }
    {
        self.tower.call(Call::Next, &[]);
    }

    // One thing more; `given` is the sector that was read last.
    pub fn step(&mut self, given: &[u8; 512]) -> Ask<Value, Reply>
        ensures { engine_of.Steps self.old given.now result self.new }
    {
        self.tower.step(given)
    }

    // The bytes to write.
    pub fn buffer(&self) -> &[u8; 512]
        ensures { result.now ≡ engine_of.Buffer self.now }
    {
        self.tower.buffer()
    }

    // The bytes of the text that was handed over.
    pub fn shown(&self) -> &[u8]
        ensures { result.now ≡ engine_of.Shows self.now }
    {
        self.tower.shown()
    }
}
