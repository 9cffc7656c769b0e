//! Rows of nodes: it prints each line of `data/rows`, and at each line `run` how a node ended, what it wrote, and what was written
//! to each connection that it handed back. What has to be printed stands in `stdout`, from outside the program. It stands on
//! `bus_top` for the nodes, on `bus_link` for links in memory, and on `bus_io` and `bus_stores` for what a node is given; nothing
//! stands on it.
//!
//! The lines before a `run` say what its node is given. A line that is empty or begins with `#` gives nothing.
//!
//! | Line | What is given |
//! |---|---|
//! | `words WORD ..` | the words that start it |
//! | `input TEXT`, `part TEXT` | its input goes on with a line, or with a text without LF |
//! | `long COUNT` | its input goes on with so many bytes of a comment without LF |
//! | `read CALL` | this read of its input fails |
//! | `room COUNT` | its output has room for so many bytes |
//! | `accept TEXT`, `broken TEXT` | a connection to accept whose peer sends this; of a broken one the first read fails |
//! | `connect TEXT`, `answer HEX`, `silent` | a connection to make, whose peer sends this, or an answer with this body; of a silent one the first read fails |
//! | `fail listen CALL`, `fail connect CALL`, `fail accept CALL` | this call of its link or its door fails |
//! | `mark TEXT` | its keeper holds this mark and the row 0/1=aa, by one commit |
//! | `store CALL` | this call of its keeper fails; the commit of a mark is call 0 |
//!
//! Calls are counted from 0, and in a connection's text `\e` stands for CR and LF.
#![tactic(auto)]

mod gathering;
mod showing;
mod wires;
mod words;

use bus_top::{NodeStatus, node};
use gathering::{Given, gather, words_in};
use showing::show_end;
use std::alloc::Global;
use std::fs;
use std::sync::Wait;
use std::test::Fail;

/// The file of the rows.
const ROWS: &str = "rows";

/// What ends the lines of a node.
const RUN: &str = "\nrun\n";

fn main(rt: HostRuntime) -> Result<(), Fail> {
    let rows = fs::read_to_string(&rt, ROWS)?;
    for lines in rows.split_inclusive(RUN) {
        print!(rt; "{lines}")?;
        show_run(&rt, &rt, lines)?;
    }
    Ok(())
}

// Runs a node on what its lines give, and prints what comes of it.
fn show_run(rt: &HostRuntime, lock: &impl Wait, lines: &str) -> Result<(), Fail> {
    let words = words_in(rt.alloc(), lines)?;
    let given = gather(rt.alloc(), lines)?;
    let (status, given) = run(lock, rt.alloc(), &words, given);
    show_end(rt, status, &given)
}

// Runs a node.
fn run(lock: &impl Wait, alloc: Global, words: &[String], given: Given) -> (NodeStatus, Given) {
    node(lock, alloc, words, given)
}
