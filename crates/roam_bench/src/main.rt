//! Times single calls of the libraries. `bench/run.sh` starts it, once for each case.
//!
//! With the name of a case it runs that case and prints a line: the case, how many calls were made,
//! a number that the answers add up to (so that none is left out), and the seconds that passed.
//! With any other words it does nothing. No figure is a promise.

#![tactic(auto)]

mod calls;
mod drawing;
mod fits;
mod flights;
mod frames;
mod gauge;
mod grids;
mod heaps;
mod pools;
mod reading;
mod scripts;
mod sums;

use crate::calls::call_of;
use crate::flights::{flight_of, fly};
use crate::frames::{Timed, case_of, frame};
use crate::sums::Flown;
use std::time::Instant;
use std::{env, io};

fn main(rt: HostRuntime) -> io::Result<()> {
    for word in env::args(&rt)? {
        run(&rt, word.as_str())?;
    }
    Ok(())
}

/// Runs the case of a word, if it has one, and prints what it took.
fn run(rt: &HostRuntime, word: &str) -> io::Result<()> {
    if let Some(case) = case_of(word) {
        return match frame(rt, case)? {
            Some(timed) => print_timed(rt, word, timed),
            None => Ok(()),
        };
    }
    match flight_of(word) {
        Some(flight) => match fly(rt, flight)? {
            Some(flown) => print_flown(rt, word, flown),
            None => Ok(()),
        },
        None => run_calls(rt, word),
    }
}

/// Times the calls of a word, if it has some.
fn run_calls(rt: &HostRuntime, word: &str) -> io::Result<()> {
    let Some(call) = call_of(word) else {
        return Ok(());
    };
    let start = Instant::now(rt)?;
    let (calls, found) = call.made(rt.alloc());
    let seconds = start.elapsed(rt)?.as_secs_f64();
    println!(rt; "{word} calls {calls} found {found} seconds {seconds:.6}")?;
    Ok(())
}

/// Prints what a frame of the queues took.
fn print_timed(rt: &HostRuntime, word: &str, it: Timed) -> io::Result<()> {
    println!(rt;
        "{word} calls {} found {} seconds {:.6}",
        it.evaluations, it.changes, it.seconds
    )?;
    Ok(())
}

/// Prints what a flight took: the tables, the first frame, the later ones, and what was done beside these.
fn print_flown(rt: &HostRuntime, word: &str, it: Flown) -> io::Result<()> {
    println!(rt; "{word} tables {:.6}", it.tables)?;
    for (name, sum) in [
        ("first", it.first),
        ("later", it.later),
        ("beside", it.beside),
    ] {
        println!(rt;
            "{word} {name} {} calls {} found {} seconds {:.6}",
            sum.count, sum.calls, sum.found, sum.seconds
        )?;
    }
    Ok(())
}
