use crate::drip::Drip;
use crate::reading::{side_of, told};
use crate::words::{bytes_of, cut, shown, size};
use bus_http::{AnswerFault, AskFault, Inbox, Side, read_answer, read_request, write_ask};
use bus_io::{MemorySink, MemorySource};
use std::alloc::Global;
use std::str;
use std::test::Fail;

// The most answers that are read of one row, and the longest body that is printed.
const MOST: usize = 4;

const LONG: usize = 80;

/// Prints what each read of an answer gives, up to the first that gives none: of a row `PIECE PAD TEXT`, whose text comes in pieces
/// of so many bytes, and has so many times `a` where `\p` stands. The source fails at these calls.
pub fn show_answers(rt: &HostRuntime, row: &str, fails: &[u64]) -> Result<(), Fail> {
    let (piece, rest) = cut(row);
    let (pad, text) = cut(rest);
    let bytes = bytes_of(rt.alloc(), text, size(pad))?;
    let mut source = Drip {
        inner: MemorySource::new(rt.alloc(), &bytes, fails)?,
        most: size(piece).max(1),
    };
    let mut inbox = Inbox::new(rt.alloc())?;
    let mut body = Vec::new(rt.alloc());
    for _ in 0..MOST {
        match read_answer(&mut inbox, &mut source, &mut body) {
            Ok(()) => show_body(rt, &body)?,
            Err(fault) => return show_fault(rt, fault),
        }
    }
    Ok(())
}

fn show_body(rt: &HostRuntime, body: &[u8]) -> Result<(), Fail> {
    if body.len() > LONG {
        println!(rt; "    {} bytes", body.len())?;
        return Ok(());
    }
    let text = shown(rt.alloc(), str::from_utf8(body).unwrap_or("no text"))?;
    println!(rt; "    {} bytes {text}", body.len())?;
    Ok(())
}

fn show_fault(rt: &HostRuntime, fault: AnswerFault) -> Result<(), Fail> {
    match fault {
        AnswerFault::ReadFault => println!(rt; "    read fault")?,
        AnswerFault::BadAnswer => println!(rt; "    bad answer")?,
        AnswerFault::NoMemory => println!(rt; "    no memory")?,
    }
    Ok(())
}

/// Prints what is written for the ask of a request, and what that is read as: of a row `SIDE ROOM TEXT`, onto a sink that takes so
/// many bytes.
pub fn show_asked(rt: &HostRuntime, row: &str) -> Result<(), Fail> {
    let (side, rest) = cut(row);
    let (room, text) = cut(rest);
    let bytes = bytes_of(rt.alloc(), text, 0)?;
    let mut out = MemorySink::new(rt.alloc(), size(room) as u64, &[])?;
    let outcome = ask_again(rt.alloc(), side_of(side), &bytes, &mut out)?;
    let text = shown(rt.alloc(), str::from_utf8(out.bytes()).unwrap_or("no text"))?;
    println!(rt; "    {text} {outcome}")?;
    let read = first(rt.alloc(), side_of(side), out.bytes())?;
    println!(rt; "    {read}")?;
    Ok(())
}

// Writes the ask of the first request of some bytes, and tells how that ended.
fn ask_again(
    alloc: Global,
    side: Side,
    bytes: &[u8],
    out: &mut MemorySink,
) -> Result<String, Fail> {
    let mut inbox = Inbox::new(alloc)?;
    let mut source = MemorySource::new(alloc, bytes, &[])?;
    let Ok(Some(request)) = read_request(alloc, &mut inbox, &mut source, side) else {
        return Ok(String::from_str(alloc, "no request")?);
    };
    match write_ask(alloc, out, &request.ask) {
        Ok(()) => Ok(String::from_str(alloc, "written")?),
        Err(AskFault::WriteFault { written }) => Ok(format!(in alloc; "fault after {written}")?),
        Err(AskFault::NoMemory) => Ok(String::from_str(alloc, "no memory")?),
    }
}

// What the first request of some bytes is.
fn first(alloc: Global, side: Side, bytes: &[u8]) -> Result<String, Fail> {
    let mut inbox = Inbox::new(alloc)?;
    let mut source = MemorySource::new(alloc, bytes, &[])?;
    match read_request(alloc, &mut inbox, &mut source, side) {
        Ok(Some(request)) => Ok(told(alloc, &request)?),
        _ => Ok(String::from_str(alloc, "no request")?),
    }
}
