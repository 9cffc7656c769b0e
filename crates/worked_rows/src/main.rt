//! Worked scripts: runs each script that `data/rows` names through `trace`, and prints its name, what `trace` wrote and the
//! status that it answered; and then runs around which reads and writes fail, as `data/faults` says. What has to be printed
//! stands in `stdout`, from outside the program. It stands on `bus_top` for `trace`, on `bus_io` for files, output and sources
//! and sinks in memory, and on `bus_stores` for the keepers that a run hands back.
#![tactic(auto)]

mod faults;

use bus_io::{Reading, Writing};
use bus_top::{Status, trace};
use faults::show_faults;
use std::test::Fail;
use std::{fs, io};

/// The file that names the scripts in a line each, which is the script's file and then the words of the call.
const ROWS: &str = "rows";

fn main(rt: HostRuntime) -> Result<(), Fail> {
    let rows = fs::read_to_string(&rt, ROWS)?;
    for row in rows.lines() {
        show(&rt, row)?;
    }
    show_faults(&rt)
}

// Prints a row and what comes of it.
fn show(rt: &HostRuntime, row: &str) -> io::Result<()> {
    println!(rt; "== {row}")?;
    let (script, words) = row.split_once(' ').unwrap_or((row, ""));
    let status = run(rt, script, words)?;
    show_status(rt, status)
}

/// Prints how a run ended.
pub fn show_status(rt: &HostRuntime, status: Status) -> io::Result<()> {
    match status {
        Status::Done => println!(rt; "-- 0"),
        status => println!(rt; "-- {} {status}", status.number()),
    }
}

// Runs a script with these words, onto the standard output.
fn run(rt: &HostRuntime, script: &str, words: &str) -> io::Result<Status> {
    let mut list = Vec::new(rt.alloc());
    for word in words.split_whitespace() {
        list.push(String::from_str(rt.alloc(), word)?)?;
    }
    let mut input = Reading::new(fs::open(rt, script)?);
    let mut out = Writing::new(rt.stdout());
    let mut kept = None;
    Ok(trace(rt.alloc(), &list, &mut input, &mut out, &mut kept))
}
