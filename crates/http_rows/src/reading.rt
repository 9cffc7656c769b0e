use crate::drip::Drip;
use crate::words::{bytes_of, cut, size};
use bus_http::{Inbox, Request, RequestFault, Side, read_request};
use bus_io::MemorySource;
use bus_types::{NoMemory, cursor_text};
use bus_wire::Ask;
use partition_filter::Filter;
use std::alloc::Global;
use std::test::Fail;

// The most reads of one row.
const MOST: usize = 8;

// What came of one read of a request.
#[derive(Drop)]
struct Read {
    text: String,
    ends: bool,
}

/// Prints what each read of requests answers, up to the end of the input or of what a server would read: of a row
/// `SIDE PIECE PAD TEXT`, whose text comes in pieces of so many bytes, and has so many times `a` where `\p` stands. The source
/// fails at these calls.
pub fn show_requests(rt: &HostRuntime, row: &str, fails: &[u64]) -> Result<(), Fail> {
    let (side, rest) = cut(row);
    let (piece, rest) = cut(rest);
    let (pad, text) = cut(rest);
    let bytes = bytes_of(rt.alloc(), text, size(pad))?;
    let mut source = Drip {
        inner: MemorySource::new(rt.alloc(), &bytes, fails)?,
        most: size(piece).max(1),
    };
    let mut inbox = Inbox::new(rt.alloc())?;
    for _ in 0..MOST {
        let read = read_one(rt.alloc(), &mut inbox, &mut source, side_of(side))?;
        println!(rt; "    {}", read.text)?;
        if read.ends {
            break;
        }
    }
    Ok(())
}

/// The side that a word names.
pub fn side_of(word: &str) -> Side {
    match word {
        "relay" => Side::Relay,
        _ => Side::Boot,
    }
}

fn read_one(
    alloc: Global,
    inbox: &mut Inbox,
    source: &mut Drip,
    side: Side,
) -> Result<Read, NoMemory> {
    match read_request(alloc, inbox, source, side) {
        Ok(None) => line(String::from_str(alloc, "end")?, true),
        Ok(Some(request)) => line(told(alloc, &request)?, false),
        Err(RequestFault::NoMemory) => Err(NoMemory),
        Err(fault) => line(word(alloc, fault)?, is_last(fault)),
    }
}

fn line(text: String, ends: bool) -> Result<Read, NoMemory> {
    Ok(Read { text, ends })
}

// Behind a head that is none, or too long, no request is sought.
fn is_last(fault: RequestFault) -> bool {
    matches!(fault, RequestFault::BadHead | RequestFault::HeadTooLong)
}

fn word(alloc: Global, fault: RequestFault) -> Result<String, NoMemory> {
    let text = match fault {
        RequestFault::ReadFault => "read fault",
        RequestFault::HeadTooLong => "head too long",
        RequestFault::BadHead => "bad head",
        RequestFault::BadMethod => "bad method",
        RequestFault::NoSuchPath => "no such path",
        RequestFault::BadQuery { name } => return Ok(format!(in alloc; "bad query {name}")?),
        RequestFault::NoMemory => "no memory",
    };
    Ok(String::from_str(alloc, text)?)
}

/// The words of a request, of which the last says whether the connection is closed behind it.
pub fn told(alloc: Global, request: &Request) -> Result<String, NoMemory> {
    let mut text = asked(alloc, &request.ask)?;
    text.push_str(if request.close { " close" } else { "" })?;
    Ok(text)
}

fn asked(alloc: Global, ask: &Ask) -> Result<String, NoMemory> {
    match ask {
        Ask::Stream { scn, filter, max } => {
            let rows = rows_of(alloc, filter, *max)?;
            Ok(format!(in alloc; "stream {scn} {rows}")?)
        }
        Ask::Start { since, fresh } => Ok(format!(in alloc; "start {since} {fresh}")?),
        Ask::Scan {
            start,
            cursor,
            filter,
            max,
        } => {
            let cursor = cursor_text(alloc, *cursor)?;
            let rows = rows_of(alloc, filter, *max)?;
            Ok(format!(in alloc; "scan {start} {cursor} {rows}")?)
        }
        Ask::Target { start, atleast } => Ok(format!(in alloc; "target {start} {atleast}")?),
        Ask::Catchup {
            at,
            target,
            filter,
            max,
        } => {
            let rows = rows_of(alloc, filter, *max)?;
            Ok(format!(in alloc; "catchup {at} {target} {rows}")?)
        }
        Ask::Delta {
            since,
            target,
            cursor,
            filter,
            max,
        } => {
            let cursor = cursor_text(alloc, *cursor)?;
            let rows = rows_of(alloc, filter, *max)?;
            Ok(format!(in alloc; "delta {since} {target} {cursor} {rows}")?)
        }
    }
}

fn rows_of(alloc: Global, filter: &Filter, max: u32) -> Result<String, NoMemory> {
    let filter = filter.write(alloc)?;
    Ok(format!(in alloc; "{filter} {max}")?)
}
