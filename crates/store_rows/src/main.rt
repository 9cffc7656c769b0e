//! Rows of calls on stores, and on what stands on them alone: keepers and logs in memory, marks, the applier, the bootstrap and
//! the client. It makes the call of each line of `data/rows` and prints the line and what the call answered. What has to be
//! printed stands in `stdout`, from outside the program. Keeper and log are wrapped in ones that tell nothing of themselves
//! but what each must, as ones over a database or over files do. Nothing stands on it.
#![tactic(auto)]

mod boots;
mod clients;
mod desk;
mod keepers;
mod logs;
mod marks;
mod quiet;
mod quiet_log;
mod told;
mod words;

use desk::Desk;
use std::fs;
use std::test::Fail;

/// The file of the calls, one a line. A line that is empty or begins with `#` is none.
const ROWS: &str = "rows";

fn main(rt: HostRuntime) -> Result<(), Fail> {
    let rows = fs::read_to_string(&rt, ROWS)?;
    let mut desk = Desk::new(rt.alloc());
    show_rows(&rt, &mut desk, &rows)
}

fn show_rows(rt: &HostRuntime, desk: &mut Desk, rows: &str) -> Result<(), Fail> {
    for row in rows.lines() {
        show(rt, desk, row)?;
    }
    Ok(())
}

// Prints a row and what comes of it.
fn show(rt: &HostRuntime, desk: &mut Desk, row: &str) -> Result<(), Fail> {
    println!(rt; "{row}")?;
    if row.is_empty() || row.starts_with('#') {
        return Ok(());
    }
    show_answer(rt, desk, row)
}

fn show_answer(rt: &HostRuntime, desk: &mut Desk, row: &str) -> Result<(), Fail> {
    let answer = desk.answer(rt.alloc(), row)?;
    println!(rt; "    {answer}")?;
    Ok(())
}
