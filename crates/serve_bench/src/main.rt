//! The program `serve_bench`: times what a relay serves of the windows that it keeps, and what a consumer takes of it. It
//! stands on `byte_ring` and `client_switch`; nothing stands on it.
//!
//! `serve WINDOWS ROUNDS FILTER` serves so many generated windows in replies of at most 32, so many times over, and copies
//! the same bytes for a comparison. `poll WINDOWS 1 FILTER` publishes so many, and after every 32 of them a consumer polls.
//! It prints nanoseconds a window.
#![tactic(auto)]

mod fault;
mod poll;
mod serve;

use bus_types::read_number;
use fault::Fault;
use partition_filter::Filter;
use std::time::Instant;
use std::{env, io};

// The most windows and rounds.
const MAX: u64 = 1 << 30;

fn main(rt: HostRuntime) -> io::Result<()> {
    let words: Vec<String> = env::args(&rt)?.skip(1).collect(rt.alloc())?;
    match words.as_slice() {
        [] => tiny(&rt),
        [what, windows, rounds, filter] => {
            let Ok(filter) = Filter::read(rt.alloc(), filter) else {
                return Err(io::ErrorKind::InvalidInput.into());
            };
            timed(&rt, what, number(windows)?, number(rounds)?, filter)
        }
        _ => Err(io::ErrorKind::InvalidInput.into()),
    }
}

// The number of a word.
fn number(word: &str) -> io::Result<u64> {
    match read_number(word.as_bytes(), MAX) {
        Some(number) => Ok(number),
        None => Err(io::ErrorKind::InvalidInput.into()),
    }
}

// Serves 40 windows and polls 64, and prints how many were served and polled.
fn tiny(rt: &HostRuntime) -> io::Result<()> {
    let ring = serve::filled(rt.alloc(), 40)?;
    let (served, bytes) = serve::serve(rt.alloc(), &ring, &Filter::everything(), 2)?;
    let polled = poll::poll(rt.alloc(), 64, Filter::everything())?;
    println!(rt; "served {served} bytes {bytes} polled {polled}")
}

// The time of each window in picoseconds.
fn per_window(nanos: u128, windows: u64) -> u128 {
    if windows == 0 {
        0
    } else {
        nanos.saturating_mul(1000) / u128::from(windows)
    }
}

// Runs one of the two, and prints the times.
fn timed(
    rt: &HostRuntime,
    what: &str,
    windows: u64,
    rounds: u64,
    filter: Filter,
) -> io::Result<()> {
    match what {
        "serve" => timed_serve(rt, windows, rounds, &filter),
        "poll" => timed_poll(rt, windows, filter),
        _ => Err(io::ErrorKind::InvalidInput.into()),
    }
}

// Serves the windows so many times, and copies as many bytes.
fn timed_serve(rt: &HostRuntime, windows: u64, rounds: u64, filter: &Filter) -> io::Result<()> {
    let ring = serve::filled(rt.alloc(), windows)?;
    let replies = serve::replies(rt.alloc(), &ring, filter)?;
    let start = Instant::now(rt)?;
    let (served, bytes) = serve::serve(rt.alloc(), &ring, filter, rounds)?;
    let serving = per_window(start.elapsed(rt)?.as_nanos(), served);
    let start = Instant::now(rt)?;
    let copied = serve::copy(rt.alloc(), &replies, rounds)?;
    let copying = per_window(start.elapsed(rt)?.as_nanos(), served);
    println!(rt;
        "windows {served} bytes {bytes} copied {copied} serve-ns-per-window {}.{:03} copy-ns-per-window {}.{:03}",
        serving / 1000,
        serving % 1000,
        copying / 1000,
        copying % 1000
    )
}

// Publishes and polls so many windows.
fn timed_poll(rt: &HostRuntime, windows: u64, filter: Filter) -> io::Result<()> {
    let start = Instant::now(rt)?;
    let polled = poll::poll(rt.alloc(), windows, filter)?;
    let polling = per_window(start.elapsed(rt)?.as_nanos(), polled);
    println!(rt;
        "windows {polled} poll-ns-per-window {}.{:03}",
        polling / 1000,
        polling % 1000
    )
}
