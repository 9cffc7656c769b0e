//! Rows of requests, and of what is written in answer: it prints each line of `data/rows` and what comes of it. What has to be
//! printed stands in `stdout`, from outside the program. It stands on `bus_http`, and on `bus_io` for sources and sinks in memory;
//! nothing stands on it.
#![tactic(auto)]

mod answers;
mod drip;
mod reading;
mod words;
mod writing;

use answers::{show_answers, show_asked};
use reading::show_requests;
use std::fs;
use std::test::Fail;
use words::cut;
use writing::{show_head, show_refusal};

/// The file of the rows. A line that is empty or begins with `#` is none.
const ROWS: &str = "rows";

fn main(rt: HostRuntime) -> Result<(), Fail> {
    let rows = fs::read_to_string(&rt, ROWS)?;
    for row in rows.lines() {
        show(&rt, row)?;
    }
    Ok(())
}

// Prints a row and what comes of it.
fn show(rt: &HostRuntime, row: &str) -> Result<(), Fail> {
    println!(rt; "{row}")?;
    let (word, rest) = cut(row);
    match word {
        "read" => show_requests(rt, rest, &[]),
        "fail" => {
            let (call, rest) = cut(rest);
            show_requests(rt, rest, &[words::number(call)])
        }
        "answer" => show_answers(rt, rest, &[]),
        "lost" => {
            let (call, rest) = cut(rest);
            show_answers(rt, rest, &[words::number(call)])
        }
        "ask" => show_asked(rt, rest),
        "head" => show_head(rt, rest),
        "refusal" => show_refusal(rt, rest),
        _ => Ok(()),
    }
}
