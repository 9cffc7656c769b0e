//! The program `stream_bench`: writes a stream of windows and splits it in pieces, and prints the time that each takes.
//! Its words are the count of windows and the bytes of a piece. It stands on `event_codec` and `window_stream`; nothing
//! stands on it.
#![tactic(auto)]

mod stream;

ghost use Rattle.std.specs.Prelude.{◌<◌, ◌≤◌, IfOk};
ghost use Rattle.stream_bench.specs.declared.TheConstants.{MAX};

use bus_types::read_number;
use std::time::Instant;
use std::{env, io};
use stream::{split, windows_of, write};

// The most windows, and the most bytes of a piece.
const MAX: u64 = 1 << 30;

fn main(rt: HostRuntime) -> io::Result<()> {
    let words: Vec<String> = env::args(&rt)?.skip(1).collect(rt.alloc())?;
    match words.as_slice() {
        [] => tiny(&rt),
        [windows, piece] => timed(&rt, windows, piece),
        _ => Err(io::ErrorKind::InvalidInput.into()),
    }
}

// The number of a word, from 1 on.
fn number(word: &str) -> io::Result<u64>
    ensures { IfOk result (λ n. (0 < n) × (n ≤ MAX)) }
{
    match read_number(word.as_bytes(), MAX) {
        Some(0) | None => Err(io::ErrorKind::InvalidInput.into()),
        Some(number) => Ok(number),
    }
}

// Splits ten windows, and prints how many were given.
fn tiny(rt: &HostRuntime) -> io::Result<()> {
    let windows = windows_of(rt.alloc(), 10)?;
    let bytes = write(rt.alloc(), &windows)?;
    let given = split(rt.alloc(), &bytes, 7)?;
    println!(rt; "windows {} given {}", windows.len(), given.len())
}

// The time of each byte in picoseconds.
fn per_byte(nanos: u128, bytes: usize) -> u128 {
    if bytes == 0 {
        0
    } else {
        nanos.saturating_mul(1000) / bytes as u128
    }
}

// Writes and splits so many windows, and prints the times.
fn timed(rt: &HostRuntime, windows: &str, piece: &str) -> io::Result<()> {
    let (count, piece) = (number(windows)?, number(piece)?);
    let windows = windows_of(rt.alloc(), count)?;
    let start = Instant::now(rt)?;
    let bytes = write(rt.alloc(), &windows)?;
    let written = per_byte(start.elapsed(rt)?.as_nanos(), bytes.len());
    let start = Instant::now(rt)?;
    let given = split(rt.alloc(), &bytes, piece as usize)?;
    let taken = per_byte(start.elapsed(rt)?.as_nanos(), bytes.len());
    println!(rt;
        "windows {} piece {piece} bytes {} write-ns-per-byte {}.{:03} split-ns-per-byte {}.{:03}",
        given.len(),
        bytes.len(),
        written / 1000,
        written % 1000,
        taken / 1000,
        taken % 1000
    )
}
