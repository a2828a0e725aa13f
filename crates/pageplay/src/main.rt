// Plays random gets, puts, searches, commits, undos and cuts of power on pages over a device in memory, against a model in memory,
// from printed seeds; and counts what is asked of the device.
#![tactic(auto)]

mod drive;
mod model;
mod play;

use drive::Asks;
use play::Play;
use std::alloc::{AllocError, Global};
use std::process::ExitCode;
use std::{env, io};

fn rehearse(rt: &HostRuntime, seed: u64, rounds: u32) -> io::Result<()> {
    let mut play = Play::start(rt.alloc(), seed)?;
    for _ in 0..rounds {
        play.round(rt.alloc())?;
    }
    println!(rt; "seed {seed}, rounds {rounds}: {}", play.done())
}

// The same play from four seeds.
fn rehearse_all(rt: &HostRuntime, rounds: u32) -> io::Result<()> {
    for seed in 1..5 {
        rehearse(rt, seed, rounds)?;
    }
    Ok(())
}

// So many puts of so many pages, and the commit; what all of it asked of the device.
fn cost(heap: Global, puts: u64, pages: u64) -> Result<Asks, AllocError> {
    let mut play = Play::start(heap, 1)?;
    let mut all = Asks::default();
    for k in 0..puts {
        let n = (k % pages.max(1) % 200) as usize;
        all = all + play.put(n, 1 + k % 4)?;
    }
    Ok(all + play.commit()?)
}

fn say_costs(rt: &HostRuntime) -> io::Result<()> {
    let small = drive::opening(rt.alloc(), 4096)?;
    println!(rt; "coming up at 2 MiB: {small}")?;
    let large = drive::opening(rt.alloc(), 2097152)?;
    println!(rt; "coming up at 1 GiB: {large}")?;
    let one = cost(rt.alloc(), 1, 1)?;
    println!(rt; "1 page put and committed: {one}")?;
    let hundred = cost(rt.alloc(), 100, 100)?;
    println!(rt; "100 pages put and committed: {hundred}")?;
    let thousand = cost(rt.alloc(), 1000, 10)?;
    println!(rt; "1000 puts of 10 pages, committed: {thousand}")
}

// With a number: so many rounds from each seed, and nothing else.
fn played(rt: &HostRuntime) -> io::Result<()> {
    let Some(word) = env::args(rt)?.nth(1) else {
        rehearse_all(rt, 1500)?;
        return say_costs(rt);
    };
    match word.parse() {
        Ok(rounds) => rehearse_all(rt, rounds),
        Err(_) => Err(io::Error::from(io::ErrorKind::InvalidInput)),
    }
}

// A word that is no number, and a line that can't be written, show in the status alone.
fn main(rt: HostRuntime) -> ExitCode {
    match played(&rt) {
        Ok(()) => ExitCode::SUCCESS,
        Err(_) => ExitCode::FAILURE,
    }
}
