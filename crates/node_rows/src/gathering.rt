use crate::wires::{accepted, connected};
use crate::words::{bytes_of, cut, number, rest_of};
use bus_io::{MemorySink, MemorySource};
use bus_link::{LinkFail, MemoryLink};
use bus_stores::{Fail as StoreStop, Keeper, MemoryKeeper};
use bus_top::Outside;
use bus_types::{Change, Key, MarkText, NoMemory, Payload};
use std::alloc::Global;
use std::test::Fail;

/// How many bytes a node may write.
const ROOM: u64 = 65_536;

/// What a node is given, in memory.
pub type Given = Outside<MemorySource, MemorySink, MemoryLink, MemoryKeeper>;

/// What a node's lines give.
pub fn gather(alloc: Global, lines: &str) -> Result<Given, Fail> {
    Ok(Outside {
        input: input(alloc, lines)?,
        out: out(alloc, lines)?,
        link: link(alloc, lines)?,
        keeper: keeper(alloc, lines)?,
    })
}

/// The words that a node's lines give.
pub fn words_in(alloc: Global, lines: &str) -> Result<Vec<String>, NoMemory> {
    let mut words = Vec::new(alloc);
    for word in rest_of(lines, "words").unwrap_or("").split(' ') {
        words.push(String::from_str(alloc, word)?)?;
    }
    Ok(words)
}

fn input(alloc: Global, lines: &str) -> Result<MemorySource, NoMemory> {
    let bytes = input_bytes(alloc, lines)?;
    let reads = calls(alloc, lines, "read")?;
    MemorySource::new(alloc, &bytes, &reads)
}

fn input_bytes(alloc: Global, lines: &str) -> Result<Vec<u8>, NoMemory> {
    let mut bytes = Vec::new(alloc);
    for line in lines.lines() {
        add_input(&mut bytes, line)?;
    }
    Ok(bytes)
}

// Adds what a line says of the input.
fn add_input(bytes: &mut Vec<u8>, line: &str) -> Result<(), NoMemory> {
    let (word, rest) = cut(line);
    match word {
        "input" => add_line(bytes, rest),
        "part" => add_part(bytes, rest),
        "long" => add_comment(bytes, number(rest)),
        _ => Ok(()),
    }
}

fn add_line(bytes: &mut Vec<u8>, line: &str) -> Result<(), NoMemory> {
    add_part(bytes, line)?;
    bytes.push(b'\n')?;
    Ok(())
}

fn add_part(bytes: &mut Vec<u8>, text: &str) -> Result<(), NoMemory> {
    bytes.extend_from_slice(text.as_bytes())?;
    Ok(())
}

// Adds so many bytes of a comment.
fn add_comment(bytes: &mut Vec<u8>, count: u64) -> Result<(), NoMemory> {
    for _ in 0..count {
        bytes.push(b'#')?;
    }
    Ok(())
}

// The numbers behind a word.
fn calls(alloc: Global, lines: &str, word: &str) -> Result<Vec<u64>, NoMemory> {
    let mut found = Vec::new(alloc);
    for line in lines.lines() {
        add_call(&mut found, line, word)?;
    }
    Ok(found)
}

fn add_call(found: &mut Vec<u64>, line: &str, word: &str) -> Result<(), NoMemory> {
    let (first, rest) = cut(line);
    if first == word {
        found.push(number(rest))?;
    }
    Ok(())
}

fn out(alloc: Global, lines: &str) -> Result<MemorySink, NoMemory> {
    let room = match rest_of(lines, "room") {
        Some(count) => number(count).min(ROOM),
        None => ROOM,
    };
    MemorySink::new(alloc, room, &[])
}

fn link(alloc: Global, lines: &str) -> Result<MemoryLink, Fail> {
    let fails = link_fails(alloc, lines)?;
    let accepts = accepted(alloc, lines)?;
    let connects = connected(alloc, lines)?;
    Ok(MemoryLink::new(alloc, accepts, connects, &fails)?)
}

// The calls of a link that are to fail.
fn link_fails(alloc: Global, lines: &str) -> Result<Vec<LinkFail>, NoMemory> {
    let mut fails = Vec::new(alloc);
    for line in lines.lines() {
        add_link_fail(&mut fails, line)?;
    }
    Ok(fails)
}

fn add_link_fail(fails: &mut Vec<LinkFail>, line: &str) -> Result<(), NoMemory> {
    let (word, rest) = cut(line);
    if word == "fail" {
        fails.push(link_fail(rest))?;
    }
    Ok(())
}

fn link_fail(text: &str) -> LinkFail {
    let (kind, place) = cut(text);
    let call = number(place);
    match kind {
        "listen" => LinkFail::Listen(call),
        "connect" => LinkFail::Connect(call),
        _ => LinkFail::Accept(call),
    }
}

fn keeper(alloc: Global, lines: &str) -> Result<MemoryKeeper, Fail> {
    let stops = store_stops(alloc, lines)?;
    let keeper = MemoryKeeper::new(alloc, &stops)?;
    match rest_of(lines, "mark") {
        Some(text) => marked(alloc, keeper, text),
        None => Ok(keeper),
    }
}

// The calls of a keeper that are to fail.
fn store_stops(alloc: Global, lines: &str) -> Result<Vec<StoreStop>, NoMemory> {
    let mut stops = Vec::new(alloc);
    for call in calls(alloc, lines, "store")? {
        stops.push(StoreStop { call, after: false })?;
    }
    Ok(stops)
}

// A keeper after the commit of a row and a mark.
fn marked(alloc: Global, mut keeper: MemoryKeeper, text: &str) -> Result<MemoryKeeper, Fail> {
    let mark = MarkText::new(alloc, text.as_bytes())?;
    let row = put(alloc)?;
    keeper.commit(alloc, false, &[row], &mark)?;
    Ok(keeper)
}

// The put of the row 0/1=aa.
fn put(alloc: Global) -> Result<Change, Fail> {
    Ok(Change {
        source: 0,
        key: Key::Long(1),
        put: Some(Payload::new(alloc, &[170])?),
    })
}
