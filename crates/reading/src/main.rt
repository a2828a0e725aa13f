// Reads each line of standard input as a statement, and prints it as it was read, or `no 1` where it is none and `no 10` where it is too long.
#![tactic(auto)]

use std::alloc::AllocError;
use std::io;
use std::io::{Read, Write};
use text::{Nodes, Refusal, read};

mod printer;

use printer::Printer;

fn answer(nodes: &mut Nodes, line: &[u8], out: &mut Vec<u8>) -> Result<(), AllocError> {
    match read(nodes, line) {
        Ok(statement) => {
            let mut printer = Printer {
                out,
                nodes,
                text: line,
            };
            printer.print(statement)?;
        }
        Err(Refusal::Unread) => out.extend_from_slice(b"no 1")?,
        Err(Refusal::TooLong) => out.extend_from_slice(b"no 10")?,
    }
    out.extend_from_slice(b"\n")
}

fn main(rt: HostRuntime) -> io::Result<()> {
    let mut input = Vec::new(rt.alloc());
    let _ = rt.stdin().read_to_end(&mut input)?;
    let mut nodes = Nodes::new(rt.alloc())?;
    let mut out = Vec::new(rt.alloc());
    for line in input.split_inclusive(|b| *b == b'\n') {
        answer(
            &mut nodes,
            line.strip_suffix(b"\n").unwrap_or(line),
            &mut out,
        )?;
    }
    rt.stdout().write_all(&out)
}
