// tables [FILE]: statements from standard input, a line each, answered on a file as the device. It is a thin driver over the
// proved engine: it does what is asked, in order, and prints the answers.
#![tactic(auto)]

use console::Stop;
use console::answers::push_reply;
use console::drive::answer;
use console::lines::for_each_line;
use session::{Engine, Reply, Unopened};
use std::io::{BufReader, Write};
use std::process::ExitCode;
use std::{env, fmt, io};

mod file;

use file::FileDisk;

// Answers are gathered up to this many bytes before they are printed, and always printed before the next line is read.
const GATHERED: usize = 65536;

// A connection: the engine on its disk, the values of the row that is handed over, and what is to be printed.
#[derive(Drop)]
struct Console {
    engine: Engine,
    disk: FileDisk,
    row: Vec<u8>,
    out: Vec<u8>,
}

impl Console {
    // Does what the engine asks until it answers.
    fn hear(&mut self) -> Result<Reply, Stop> {
        answer(&mut self.engine, &mut self.disk, &mut self.row)
    }

    fn note(&mut self, reply: Reply) -> Result<(), Stop> {
        push_reply(&mut self.out, reply, self.row.as_slice())?;
        Ok(())
    }

    fn print(&mut self, rt: &HostRuntime) -> Result<(), Stop> {
        rt.stdout().write_all(self.out.as_slice())?;
        self.out.clear();
        Ok(())
    }

    // The rows of the query that runs, up to its end.
    fn rows(&mut self, rt: &HostRuntime) -> Result<(), Stop> {
        // kept: (d) a count that is not reached: the form that the toolchain has for a loop on input, whose end is in no number that falls
        for _ in 0..u64::MAX {
            self.engine.next();
            let reply = self.hear()?;
            self.note(reply)?;
            if reply != Reply::Row {
                return Ok(());
            }
            if self.out.len() >= GATHERED {
                self.print(rt)?;
            }
        }
        Ok(())
    }

    // A statement and its answer.
    fn say(&mut self, rt: &HostRuntime, text: &[u8]) -> Result<(), Stop> {
        self.engine.say(text);
        match self.hear()? {
            Reply::Begun => self.rows(rt)?,
            reply => self.note(reply)?,
        }
        self.print(rt)
    }
}

// Comes up on the disk, and answers each line.
fn serve(rt: &HostRuntime, engine: Engine, disk: FileDisk) -> Result<(), Stop> {
    let heap = rt.alloc();
    let mut console = Console {
        engine,
        disk,
        row: Vec::new(heap),
        out: Vec::new(heap),
    };
    let _ = console.hear()?;
    let mut input = BufReader::new(heap, rt.stdin())?;
    let mut line = Vec::new(heap);
    for_each_line(&mut input, &mut line, |text| console.say(rt, text))
}

// Why nothing more is answered.
#[derive(Drop)]
enum Failure {
    // the file can't be opened
    File(io::Error),
    // so many bytes are no device
    Size(u64),
    Memory,
    // a read or a write failed, of the device or of what is said and answered
    Stopped(io::Error),
}

// How to make a device.
const HINT: &str = "a blank device is made by: truncate -s 64M NAME";

impl fmt::Display for Failure {
    fn fmt<W: fmt::Write>(&self, f: &mut fmt::Formatter<W>) -> fmt::Result {
        match self {
            Failure::File(e) => write!(f, "{e}; {HINT}"),
            Failure::Size(bytes) => write!(
                f,
                "{bytes} bytes are no device, which has a multiple of 512 and at least 2097152; {HINT}"
            ),
            Failure::Memory => write!(f, "not enough memory for a device of this size; {HINT}"),
            Failure::Stopped(e) => write!(f, "{e}"),
        }
    }
}

impl From<Stop> for Failure {
    fn from(stop: Stop) -> Failure {
        match stop {
            Stop::Failed(e) => Failure::Stopped(e),
            Stop::Cut => Failure::Stopped(io::Error::from(io::ErrorKind::UnexpectedEof)),
        }
    }
}

fn run(rt: &HostRuntime, path: &str) -> Result<(), Failure> {
    let disk = FileDisk::open(rt, path).map_err(Failure::File)?;
    let bytes = disk.bytes();
    let sectors = disk.sectors().ok_or(Failure::Size(bytes))?;
    let engine = Engine::open(rt.alloc(), sectors).map_err(|why| match why {
        Unopened::Size => Failure::Size(bytes),
        Unopened::Memory => Failure::Memory,
    })?;
    serve(rt, engine, disk)?;
    Ok(())
}

// Answers on the file that is named, and says on standard error why it ended, where it failed.
fn run_named(rt: &HostRuntime, path: &str) -> io::Result<ExitCode> {
    let Err(failure) = run(rt, path) else {
        return Ok(ExitCode::SUCCESS);
    };
    eprintln!(rt; "tables: {path}: {failure}")?;
    Ok(ExitCode::FAILURE)
}

// The file that is named, or `device`.
fn run_first(rt: &HostRuntime) -> io::Result<ExitCode> {
    let mut args = env::args(rt)?;
    match args.nth(1) {
        Some(path) => run_named(rt, path.as_str()),
        None => run_named(rt, "device"),
    }
}

// An error that `main` returned would be printed beside the line that says why, so it ends by its status.
fn main(rt: HostRuntime) -> ExitCode {
    run_first(&rt).unwrap_or(ExitCode::FAILURE)
}
