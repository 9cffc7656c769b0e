//! Rows of connections to a bootstrap, and to a relay by a pass of a shared ring: it prints each line of `data/rows`, what was written
//! to the connection and how its serving ended. Each is served by a new bootstrap or a new relay. What has to be printed stands in
//! `stdout`, from outside the program. It stands on `bootstrap_server` and `relay_server`, and on `bus_stores`, `range_ring` and
//! `bus_io` for what is served and for connections in memory; nothing stands on it.
#![tactic(auto)]

mod boots;
mod conns;
mod rings;
mod windows;
mod words;

use boots::{BREAK, NEVER, show_served};
use conns::ROOM;
use rings::show_shared;
use std::fs;
use std::sync::Wait;
use std::test::Fail;
use words::{cut, number};

/// The file of the rows. A line that is empty or begins with `#` is none.
const ROWS: &str = "rows";

fn main(rt: HostRuntime) -> Result<(), Fail> {
    let rows = fs::read_to_string(&rt, ROWS)?;
    for row in rows.lines() {
        println!(rt; "{row}")?;
        show(&rt, &rt, row)?;
    }
    Ok(())
}

// Prints what comes of a row.
fn show(rt: &HostRuntime, lock: &impl Wait, row: &str) -> Result<(), Fail> {
    let (word, rest) = cut(row);
    match word {
        "serve" => show_served(rt, lock, NEVER, rest, ROOM, &[], &[]),
        "broken" => show_served(rt, lock, BREAK, rest, ROOM, &[], &[]),
        "ring" => show_shared(rt, lock, 1, rest),
        "ring3" => show_shared(rt, lock, 3, rest),
        _ => show_failing(rt, lock, word, rest),
    }
}

// Prints what comes of a row whose connection has little room, or fails at a call: the number that its text begins with.
fn show_failing(rt: &HostRuntime, lock: &impl Wait, word: &str, rest: &str) -> Result<(), Fail> {
    let (place, text) = cut(rest);
    match word {
        "room" => show_served(rt, lock, NEVER, text, number(place), &[], &[]),
        "read" => show_served(rt, lock, NEVER, text, ROOM, &[number(place)], &[]),
        "write" => show_served(rt, lock, NEVER, text, ROOM, &[], &[number(place)]),
        _ => Ok(()),
    }
}
