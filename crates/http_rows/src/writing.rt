use crate::words::{cut, number, shown};
use bus_http::{Refused, write_refusal, write_reply_head};
use bus_io::{MemorySink, WriteFault};
use std::str;
use std::test::Fail;

// Prints what was written, and how a write ended.
fn show_written(
    rt: &HostRuntime,
    out: &MemorySink,
    outcome: Result<(), WriteFault>,
) -> Result<(), Fail> {
    let text = shown(rt.alloc(), str::from_utf8(out.bytes()).unwrap_or("no text"))?;
    match outcome {
        Ok(()) => println!(rt; "    {text}")?,
        Err(fault) => println!(rt; "    {text} and a fault after {}", fault.written)?,
    }
    Ok(())
}

/// Prints the head of a reply of a row `SIZE ROOM`: of so many bytes, onto a sink that takes so many.
pub fn show_head(rt: &HostRuntime, row: &str) -> Result<(), Fail> {
    let (size, room) = cut(row);
    let mut out = MemorySink::new(rt.alloc(), number(room).min(1000), &[])?;
    let outcome = write_reply_head(&mut out, number(size));
    show_written(rt, &out, outcome)
}

/// Prints the refusal of a row `STATUS ROOM`, onto a sink that takes so many bytes.
pub fn show_refusal(rt: &HostRuntime, row: &str) -> Result<(), Fail> {
    let (status, room) = cut(row);
    let refused = match status {
        "400" => Refused::BadRequest,
        "404" => Refused::NotFound,
        "405" => Refused::MethodNotAllowed,
        "431" => Refused::HeadTooLarge,
        _ => Refused::ServerError,
    };
    let mut out = MemorySink::new(rt.alloc(), number(room).min(1000), &[])?;
    let outcome = write_refusal(&mut out, refused);
    show_written(rt, &out, outcome)
}
