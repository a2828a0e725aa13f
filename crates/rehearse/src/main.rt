// rehearse: plays a script on a device in memory, with cuts of power. A line is a statement, `next`, `cut N S` (power fails
// once N more things have been asked of the device, and the seed S chooses what was kept of each sector), or as the first one
// `size N`, in sectors. It prints the answer of each call, and `cut` where the power failed; then it comes up by itself.
#![tactic(auto)]

use console::Stop;
use console::answers::push_reply;
use console::drive::answer;
use console::lines::{for_each_line, read_line};
use session::{Engine, Reply};
use std::alloc::Global;
use std::io;
use std::io::{BufReader, Write};
use std::process::ExitCode;

mod disk;
mod script;

use disk::CutDisk;
use script::{Line, line_of, size_of};

// The sectors of a device where no size is said.
const SECTORS: u64 = 4096;

// The engine on its disk; `up` once it has come up.
#[derive(Drop)]
struct Rehearsal {
    heap: Global,
    size: u64,
    engine: Engine,
    up: bool,
    disk: CutDisk,
    row: Vec<u8>,
    out: Vec<u8>,
}

// The engine for a device of a size, which fails for one reason.
fn opened(heap: Global, size: u64, why: io::ErrorKind) -> Result<Engine, Stop> {
    Engine::open(heap, size).map_err(|_| Stop::Failed(io::Error::from(why)))
}

impl Rehearsal {
    fn begin(heap: Global, size: u64) -> Result<Rehearsal, Stop> {
        Ok(Rehearsal {
            heap,
            size,
            engine: opened(heap, size, io::ErrorKind::InvalidInput)?,
            up: false,
            disk: CutDisk::blank(heap, size)?,
            row: Vec::new(heap),
            out: Vec::new(heap),
        })
    }

    // The power has failed: what the engine had in memory is gone.
    fn fail(&mut self) -> Result<(), Stop> {
        self.up = false;
        self.out.extend_from_slice(b"cut\n")?;
        self.engine = opened(self.heap, self.size, io::ErrorKind::OutOfMemory)?;
        Ok(())
    }

    // Steps until it answers, or the power fails.
    fn hear(&mut self) -> Result<Option<Reply>, Stop> {
        match answer(&mut self.engine, &mut self.disk, &mut self.row) {
            Ok(reply) => Ok(Some(reply)),
            Err(Stop::Cut) => {
                self.fail()?;
                Ok(None)
            }
            Err(stop) => Err(stop),
        }
    }

    // Comes up, however often the power fails in it.
    fn rise(&mut self) -> Result<(), Stop> {
        // each failure uses up a cut that was planned
        for _ in 0..=self.disk.planned() {
            if self.up {
                return Ok(());
            }
            self.up = self.hear()?.is_some();
        }
        Ok(())
    }

    // The answer of the call that has begun.
    fn note(&mut self) -> Result<(), Stop> {
        match self.hear()? {
            Some(reply) => {
                push_reply(&mut self.out, reply, self.row.as_slice())?;
                Ok(())
            }
            None => self.rise(),
        }
    }

    fn play(&mut self, text: &[u8]) -> Result<(), Stop> {
        match line_of(text) {
            Line::Cut(0, seed) => {
                self.disk.cut(seed);
                self.fail()?;
                self.rise()
            }
            Line::Cut(asks, seed) => self.disk.plan(asks, seed),
            Line::Next => {
                self.rise()?;
                self.engine.next();
                self.note()
            }
            Line::Say => {
                self.rise()?;
                self.engine.say(text);
                self.note()
            }
        }
    }

    // Plays a line, and prints what was answered.
    fn answer(&mut self, rt: &HostRuntime, text: &[u8]) -> Result<(), Stop> {
        self.play(text)?;
        rt.stdout().write_all(self.out.as_slice())?;
        self.out.clear();
        Ok(())
    }
}

fn run(rt: &HostRuntime) -> Result<(), Stop> {
    let heap = rt.alloc();
    let mut input = BufReader::new(heap, rt.stdin())?;
    let mut line = Vec::new(heap);
    let mut more = read_line(&mut input, &mut line)?;
    let size = size_of(line.as_slice());
    if size.is_some() {
        more = read_line(&mut input, &mut line)?;
    }
    let mut rehearsal = Rehearsal::begin(heap, size.unwrap_or(SECTORS))?;
    // a terminal would be asked again after its end
    if !more {
        return Ok(());
    }
    rehearsal.answer(rt, line.as_slice())?;
    for_each_line(&mut input, &mut line, |text| rehearsal.answer(rt, text))
}

// Says on standard error why it ended, where it failed.
fn told(rt: &HostRuntime) -> io::Result<ExitCode> {
    let Err(stop) = run(rt) else {
        return Ok(ExitCode::SUCCESS);
    };
    if let Stop::Failed(e) = stop {
        eprintln!(rt;
            "rehearse: {e}: a size is from 4096 to 1099511627776 sectors, and fits the memory"
        )?;
    }
    Ok(ExitCode::FAILURE)
}

// An error that `main` returned would be printed beside the line that `told` writes, so it ends by its status.
fn main(rt: HostRuntime) -> ExitCode {
    told(&rt).unwrap_or(ExitCode::FAILURE)
}
