//! The program `databus`: under the word `trace` it runs the script on the standard input, and under `relay`, `bootstrap` and
//! `consume` it is a node on the sockets of 127.0.0.1. It writes the text of any other end than Done on the standard error, and ends
//! with the number of its status. It stands on `bus_top`, which proves what is read and written, on `bus_io` for the standard
//! streams, on `bus_link` for sockets and on `bus_stores` for a keeper in memory.
#![tactic(auto)]

use bus_io::{Reading, Writing};
use bus_link::TcpLink;
use bus_stores::MemoryKeeper;
use bus_top::{NodeStatus, Outside, Status, node, trace};
use std::process::ExitCode;
use std::sync::Wait;
use std::{env, fmt, io, mem};

/// The words that begin the command of a node.
const NODES: [&str; 3] = ["relay", "bootstrap", "consume"];

fn main(rt: HostRuntime) -> ExitCode {
    let words = match words(&rt) {
        Ok(words) => words,
        Err(error) => {
            let status = words_fault(&error);
            return ended(&rt, status.number(), &status);
        }
    };
    if is_node(&words) {
        let status = run_node(&rt, &rt, &words);
        ended(&rt, status.number(), &status)
    } else {
        let status = run_trace(&rt, &words);
        ended(&rt, status.number(), &status)
    }
}

// Writes the text of a status, unless it is Done, and gives its number to the system.
fn ended<S: fmt::Display>(rt: &HostRuntime, number: u8, status: &S) -> ExitCode {
    if number != 0 {
        // Where the standard error can't be written either, the exit status still tells.
        let _ = eprintln!(rt; "{status}");
    }
    ExitCode::from(number)
}

fn run_trace(rt: &HostRuntime, words: &[String]) -> Status {
    let mut input = Reading::new(rt.stdin());
    let mut out = Writing::new(rt.stdout());
    let mut kept = None;
    let status = trace(rt.alloc(), words, &mut input, &mut out, &mut kept);
    // The program ends here, so what is kept isn't given back piece by piece.
    mem::forget(kept);
    status
}

fn run_node(rt: &HostRuntime, lock: &impl Wait, words: &[String]) -> NodeStatus {
    let Ok(keeper) = MemoryKeeper::new(rt.alloc(), &[]) else {
        return NodeStatus::NoMemory;
    };
    let outside = Outside {
        input: Reading::new(rt.stdin()),
        out: Writing::new(rt.stdout()),
        link: TcpLink::new(rt.alloc(), rt),
        keeper,
    };
    let (status, _) = node(lock, rt.alloc(), words, outside);
    status
}

// The words behind the program's name.
fn words(rt: &HostRuntime) -> io::Result<Vec<String>> {
    Ok(env::args(rt)?.skip(1).collect(rt.alloc())?)
}

// Whether the first word is a node's.
fn is_node(words: &[String]) -> bool {
    match words.first() {
        Some(word) => NODES.contains(&word.as_str()),
        None => false,
    }
}

// A word that is no text is a faulty command line.
fn words_fault(error: &io::Error) -> Status {
    match error.kind() {
        io::ErrorKind::OutOfMemory => Status::NoMemory,
        _ => Status::Usage,
    }
}
