use crate::show_status;
use bus_io::{MemorySink, MemorySource};
use bus_stores::{Keeper, MemoryKeeper, all_rows};
use bus_top::{Bus, trace};
use bus_types::{Key, read_number};
use std::alloc::Global;
use std::str::{self, Split};
use std::test::Fail;
use std::{fs, io};

/// The file of the runs around which something fails, one a line: a script, how many bytes `a` stand behind it, a script that
/// stands behind these, the numbers of the read and of the write that fail, counted from 0, and the room of the output in
/// bytes. A `-` stands for none.
const FAULTS: &str = "faults";

/// Runs each of them, and prints it, what it wrote, the status, and the rows and the mark of each consumer of the bus that it
/// handed back.
pub fn show_faults(rt: &HostRuntime) -> Result<(), Fail> {
    let rows = fs::read_to_string(rt, FAULTS)?;
    for row in rows.lines() {
        show(rt, row)?;
    }
    Ok(())
}

fn show(rt: &HostRuntime, row: &str) -> Result<(), Fail> {
    println!(rt; "== {row}")?;
    let mut words = row.split(' ');
    let input = input_of(rt, &mut words)?;
    let read = number(words.next());
    let write = number(words.next());
    let mut source = MemorySource::new(rt.alloc(), &input, &[read])?;
    let mut sink = MemorySink::new(rt.alloc(), number(words.next()), &[write])?;
    let kept = run(rt, &mut source, &mut sink)?;
    match kept {
        None => println!(rt; "no bus")?,
        Some(bus) => show_bus(rt, bus)?,
    }
    Ok(())
}

// Runs the source's script, prints what it wrote and the status, and hands back the bus.
fn run(
    rt: &HostRuntime,
    source: &mut MemorySource,
    sink: &mut MemorySink,
) -> Result<Option<Bus>, Fail> {
    let words = vec![in rt.alloc(); String::from_str(rt.alloc(), "trace")?]?;
    let mut kept = None;
    let status = trace(rt.alloc(), &words, source, sink, &mut kept);
    print!(rt; "{}", shown(sink.bytes()))?;
    show_status(rt, status)?;
    Ok(kept)
}

// The bytes of the first script, so many bytes `a`, and those of the second script.
fn input_of(rt: &HostRuntime, words: &mut Split<'_, char>) -> Result<Vec<u8>, Fail> {
    let mut input = bytes_of(rt, words.next())?;
    let count = number(words.next()).min(10_000_000) as usize;
    let more = vec![in rt.alloc(); b'a'; count]?;
    input.extend_from_slice(&more)?;
    input.extend_from_slice(&bytes_of(rt, words.next())?)?;
    Ok(input)
}

// The bytes of a file, or none.
fn bytes_of(rt: &HostRuntime, name: Option<&str>) -> io::Result<Vec<u8>> {
    match name {
        None | Some("-") => Ok(Vec::new(rt.alloc())),
        Some(name) => fs::read(rt, name),
    }
}

// The number of a word, or one that no call has.
fn number(word: Option<&str>) -> u64 {
    let Some(word) = word else {
        return u64::MAX;
    };
    read_number(word.as_bytes(), u64::MAX).unwrap_or(u64::MAX)
}

fn show_bus(rt: &HostRuntime, bus: Bus) -> Result<(), Fail> {
    for mut keeper in bus.keepers() {
        show_keeper(rt, rt.alloc(), &mut keeper)?;
    }
    Ok(())
}

// Prints the rows, each as SOURCE/KEY=BYTES, and the mark.
fn show_keeper(rt: &HostRuntime, alloc: Global, keeper: &mut MemoryKeeper) -> Result<(), Fail> {
    print!(rt; "holds")?;
    let rows = all_rows(alloc, keeper)?;
    for row in rows.items() {
        let Key::Long(key) = row.key;
        print!(rt; " {}/{key}={}", row.source, shown(row.payload.bytes()))?;
    }
    match keeper.mark(alloc)? {
        None => println!(rt; " no mark")?,
        Some(mark) => println!(rt; " {}", shown(mark.bytes()))?,
    }
    Ok(())
}

// The text of some bytes.
fn shown(bytes: &[u8]) -> &str {
    str::from_utf8(bytes).unwrap_or("no text")
}
