ghost use Rattle.std.specs.Prelude.{◌≡◌, IfOk, string_bytes};
ghost use Rattle.bus_types.specs.Relay as relays;
ghost use Rattle.event_codec.specs.Reply.{IsServed};
ghost use Rattle.trace_script.specs.Printed.{line_with, reply_line};
ghost use Rattle.history_core.specs.Script.{numbers_line, sent_line, stream_line, stopped_line};
ghost use Rattle.history_core.specs.Bus.{boot_numbers};

use crate::boot::MemoryBoot;
use bus_stores::Stop;
use bus_types::NoMemory;
use event_codec::{Served, Shape};
use std::alloc::Global;
use trace_script::{Stage, boot_line, reply_line};

/// What a line prints that moves the bootstrap.
pub(crate) fn boot(alloc: Global, boot: &MemoryBoot) -> Result<Vec<u8>, NoMemory>
    ensures { IfOk result (λ text. text.items ≡ numbers_line (boot_numbers boot.now)) }
{
    let text = boot_line(alloc, boot.base(), boot.applied(), boot.high())?;
    Ok(text.into_bytes())
}

/// What a poll prints of a reply of this shape, with so many bytes, that its consumer took at this stage.
pub(crate) fn reply(
    alloc: Global,
    stage: &Stage,
    shape: &Shape,
    bytes: u64,
) -> Result<Vec<u8>, NoMemory>
    ensures { IfOk result (λ text. text.items ≡ reply_line stage.now shape.now bytes) }
{
    let text = reply_line(alloc, stage, shape, bytes)?;
    Ok(text.into_bytes())
}

// A word and a number.
fn line_with(alloc: Global, word: &str, number: u64) -> Result<String, NoMemory>
    ensures { IfOk result (λ text. string_bytes text ≡ line_with word.now number) }
{
    Ok(format!(in alloc; "{word} {number}\n")?)
}

// Windows that are no consumer's.
fn sent(alloc: Global, count: u32, bytes: u64, last: u64) -> Result<String, NoMemory>
    ensures { IfOk result (λ text. string_bytes text ≡ sent_line count bytes last) }
{
    Ok(format!(in alloc; "served {count} {bytes} last {last}\n")?)
}

/// What a stream line prints of what the relay serves.
pub(crate) fn stream(alloc: Global, served: Served) -> Result<String, NoMemory>
    ensures { (answer : relays.Served) → IsServed served answer → IfOk result (λ text. string_bytes text ≡ stream_line answer) }
{
    match served {
        Served::NotFound(floor) => line_with(alloc, "notfound", floor),
        Served::Empty(end) => line_with(alloc, "empty", end),
        Served::TooSmall(need) => line_with(alloc, "small", need),
        Served::Windows { count, last, bytes } => sent(alloc, count, bytes, last),
    }
}

/// What a poll prints whose commit met a stop.
pub(crate) fn stopped(alloc: Global, stop: Stop) -> Result<Vec<u8>, NoMemory>
    ensures { IfOk result (λ text. text.items ≡ stopped_line stop) }
{
    match stop {
        Stop::Before => Ok(Vec::from_slice(alloc, b"stopped before\n")?),
        Stop::After => Ok(Vec::from_slice(alloc, b"stopped after\n")?),
    }
}
