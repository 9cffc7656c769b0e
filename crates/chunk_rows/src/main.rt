//! Chunks of a small table that moves on while it is scanned, and of the last changes in its log: prints what each call answers
//! and how many bytes it appended. What has to be printed stands in `stdout`, from outside the program. It stands on
//! `snapshot_scan`, `delta_consolidate` and the stores in memory.
#![tactic(auto)]

mod moving;

use bus_stores::{Fail as Listed, MemoryKeeper, MemoryLog, WindowLog};
use bus_types::{Cursor, Key, MAX_SCN};
use delta_consolidate::delta;
use moving::{commit, new_log};
use partition_filter::Filter;
use snapshot_scan::chunk;
use std::test::Fail;

const ONE: Cursor = Cursor::After {
    source: 0,
    key: Key::Long(1),
};

const TWO: Cursor = Cursor::After {
    source: 0,
    key: Key::Long(2),
};

// What is done in a scan.
#[derive(Clone, Copy)]
enum Step {
    // The rows move on to an SCN.
    Commit(u64),
    // A chunk at an SCN, behind a place, of at most so many bytes.
    Chunk(u64, Cursor, u32),
}

fn main(rt: HostRuntime) -> Result<(), Fail> {
    scan(&rt)?;
    scan_that_fails(&rt)?;
    changes(&rt)?;
    changes_that_fail(&rt)
}

// A scan whose rows move on from 10 to 30 between two chunks.
fn scan(rt: &HostRuntime) -> Result<(), Fail> {
    let steps = [
        Step::Chunk(0, Cursor::Start, 1000),
        Step::Commit(10),
        Step::Chunk(10, Cursor::Start, 9),
        Step::Chunk(10, Cursor::Start, 34),
        Step::Commit(20),
        Step::Commit(30),
        Step::Chunk(30, ONE, 1000),
    ];
    show_scan(rt, &[], &steps)
}

// The keeper's second call, which reads a page, fails.
fn scan_that_fails(rt: &HostRuntime) -> Result<(), Fail> {
    let fails = [Listed {
        call: 1,
        after: false,
    }];
    let steps = [Step::Commit(10), Step::Chunk(10, Cursor::Start, 1000)];
    show_scan(rt, &fails, &steps)
}

fn show_scan(rt: &HostRuntime, fails: &[Listed], steps: &[Step]) -> Result<(), Fail> {
    let mut keeper = MemoryKeeper::new(rt.alloc(), fails)?;
    show_steps(rt, &mut keeper, steps)
}

fn show_steps(rt: &HostRuntime, keeper: &mut MemoryKeeper, steps: &[Step]) -> Result<(), Fail> {
    for step in steps {
        show_step(rt, keeper, *step)?;
    }
    Ok(())
}

fn show_step(rt: &HostRuntime, keeper: &mut MemoryKeeper, step: Step) -> Result<(), Fail> {
    match step {
        Step::Commit(scn) => commit(rt.alloc(), keeper, scn),
        Step::Chunk(applied, cursor, max) => show_chunk(rt, keeper, applied, cursor, max),
    }
}

// The last changes, in two chunks, and in other stretches.
fn changes(rt: &HostRuntime) -> Result<(), Fail> {
    let stretches = [
        (0, 40, Cursor::Start, 57),
        (0, 40, TWO, 1000),
        (0, 25, Cursor::Start, 1000),
        (20, 30, Cursor::Start, 32),
    ];
    let mut log = new_log(rt.alloc(), &[])?;
    for (since, target, cursor, max) in stretches {
        show_delta(rt, &mut log, since, target, cursor, max)?;
    }
    Ok(())
}

// The log's sixth call, which reads the second window, fails.
fn changes_that_fail(rt: &HostRuntime) -> Result<(), Fail> {
    let fails = [Listed {
        call: 5,
        after: false,
    }];
    let mut log = new_log(rt.alloc(), &fails)?;
    show_delta(rt, &mut log, 0, 40, Cursor::Start, 1000)
}

// Prints what a chunk of the keeper's rows is.
fn show_chunk(
    rt: &HostRuntime,
    keeper: &mut MemoryKeeper,
    applied: u64,
    cursor: Cursor,
    max: u32,
) -> Result<(), Fail> {
    if applied > MAX_SCN {
        return Ok(());
    }
    let filter = Filter::everything();
    let mut reply = Vec::new(rt.alloc());
    let answer = chunk(
        rt.alloc(),
        keeper,
        applied,
        &cursor,
        &filter,
        max,
        &mut reply,
    );
    println!(rt;
        "chunk at {applied} in {max}: {answer:?}, {} bytes",
        reply.len()
    )?;
    Ok(())
}

// Prints what a chunk of the log's last changes is.
fn show_delta(
    rt: &HostRuntime,
    log: &mut MemoryLog,
    since: u64,
    target: u64,
    cursor: Cursor,
    max: u32,
) -> Result<(), Fail> {
    if log.floor() > since || since >= target || target > log.high() {
        return Ok(());
    }
    let filter = Filter::everything();
    let mut reply = Vec::new(rt.alloc());
    let answer = delta(
        rt.alloc(),
        log,
        since,
        target,
        &cursor,
        &filter,
        max,
        &mut reply,
    );
    println!(rt;
        "delta {since} to {target} in {max}: {answer:?}, {} bytes",
        reply.len()
    )?;
    Ok(())
}
