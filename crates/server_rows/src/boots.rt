use crate::conns::{new_conn, show_end};
use crate::windows::put_window;
use bootstrap_core::Boot;
use bootstrap_server::serve_bootstrap;
use bus_stores::{Fail as Listed, MemoryKeeper, MemoryLog, WindowLog};
use bus_types::NoMemory;
use std::alloc::Global;
use std::sync::{Mutex, Wait};
use std::test::Fail;

/// The call from which the log of a broken bootstrap fails. The bootstrap itself has made six when it is open.
pub const BREAK: u64 = 6;

/// The call from which a log fails that doesn't.
pub const NEVER: u64 = u64::MAX;

// The calls of a log that fails, counted from 0, go up to this.
const CALLS: u64 = 64;

// The windows of a log: the SCN of each, and the key of the row that it puts.
const WINDOWS: [(u64, u64); 4] = [(10, 1), (20, 2), (30, 1), (40, 3)];

// The calls of a bootstrap on windows of its log.
const APPLIED: u32 = 2;

/// Prints what a connection that gives a text is answered by a bootstrap whose log fails from a call on, and how its serving
/// ended. The connection takes so many bytes, and its reads and writes fail at these calls.
pub fn show_served(
    rt: &HostRuntime,
    lock: &impl Wait,
    from: u64,
    text: &str,
    room: u64,
    reads: &[u64],
    writes: &[u64],
) -> Result<(), Fail> {
    let boot = new_boot(rt.alloc(), from)?;
    let mut conn = new_conn(rt.alloc(), text, room, reads, writes)?;
    let end = serve_bootstrap(lock, rt.alloc(), &boot, &mut conn);
    show_end(rt, &conn, end)
}

// A bootstrap whose log has the windows 10, 20, 30 and 40, and whose table stands at 20.
fn new_boot(alloc: Global, from: u64) -> Result<Mutex<Boot<MemoryLog, MemoryKeeper>>, Fail> {
    let mut boot = opened(alloc, from)?;
    boot.apply(alloc, APPLIED)?;
    Ok(Mutex::new(boot))
}

fn opened(alloc: Global, from: u64) -> Result<Boot<MemoryLog, MemoryKeeper>, Fail> {
    let log = log_of(alloc, from)?;
    let keeper = MemoryKeeper::new(alloc, &[])?;
    match Boot::open(alloc, log, keeper) {
        Ok(boot) => Ok(boot),
        Err(_) => Err(Fail::new("a bootstrap that can't be opened")),
    }
}

fn log_of(alloc: Global, from: u64) -> Result<MemoryLog, Fail> {
    let mut log = empty_log(alloc, from)?;
    for (scn, key) in WINDOWS {
        append(alloc, &mut log, scn, key)?;
    }
    Ok(log)
}

fn empty_log(alloc: Global, from: u64) -> Result<MemoryLog, NoMemory> {
    let calls = failing(alloc, from)?;
    MemoryLog::new(alloc, 1_048_576, &calls)
}

fn failing(alloc: Global, from: u64) -> Result<Vec<Listed>, NoMemory> {
    let mut calls = Vec::new(alloc);
    for call in from..CALLS {
        calls.push(Listed { call, after: false })?;
    }
    Ok(calls)
}

// Appends a window that puts a row behind the newest one.
fn append(alloc: Global, log: &mut MemoryLog, scn: u64, key: u64) -> Result<(), Fail> {
    let Some(window) = put_window(alloc, scn, log.high(), key) else {
        return Err(Fail::new("a window that can't be made"));
    };
    log.append(alloc, &window)?;
    Ok(())
}
