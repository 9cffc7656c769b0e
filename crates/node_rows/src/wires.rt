ghost use Rattle.std.specs.Prelude.{IfOk, OnOk, All};
ghost use Rattle.bus_link.specs.Memory.{IsNewWire};

use crate::words::{answer_of, bytes_of, cut};
use bus_io::{MemoryConn, MemorySink, MemorySource};
use std::alloc::Global;
use std::test::Fail;

/// How many bytes a connection takes.
const ROOM: u64 = 65_536;

/// The connections that a node's lines give to accept.
pub fn accepted(alloc: Global, lines: &str) -> Result<Vec<MemoryConn>, Fail>
    ensures { IfOk result (λ made. All IsNewWire made.items) }
{
    let mut made = Vec::new(alloc);
    for line in lines.lines() {
        add_accepted(alloc, line, &mut made)?;
    }
    Ok(made)
}

/// The connections that a node's lines give to make.
pub fn connected(alloc: Global, lines: &str) -> Result<Vec<MemoryConn>, Fail>
    ensures { IfOk result (λ made. All IsNewWire made.items) }
{
    let mut made = Vec::new(alloc);
    for line in lines.lines() {
        add_connected(alloc, line, &mut made)?;
    }
    Ok(made)
}

fn add_accepted(alloc: Global, line: &str, made: &mut Vec<MemoryConn>) -> Result<(), Fail>
    requires { All IsNewWire made.old.items }
    ensures { OnOk result (All IsNewWire made.new.items) }
{
    let (word, rest) = cut(line);
    match word {
        "accept" => add(alloc, bytes_of(alloc, rest)?, &[], made),
        "broken" => add(alloc, bytes_of(alloc, rest)?, &[0], made),
        _ => Ok(()),
    }
}

fn add_connected(alloc: Global, line: &str, made: &mut Vec<MemoryConn>) -> Result<(), Fail>
    requires { All IsNewWire made.old.items }
    ensures { OnOk result (All IsNewWire made.new.items) }
{
    let (word, rest) = cut(line);
    match word {
        "connect" => add(alloc, bytes_of(alloc, rest)?, &[], made),
        "answer" => add(alloc, answer_of(alloc, rest)?, &[], made),
        "silent" => add(alloc, Vec::new(alloc), &[0], made),
        _ => Ok(()),
    }
}

// Adds a new connection whose peer sends these bytes, and whose reads at these calls fail.
#[tactic(auto, using(crate::proofs::News::more))]
fn add(alloc: Global, bytes: Vec<u8>, fails: &[u64], made: &mut Vec<MemoryConn>) -> Result<(), Fail>
    requires { All IsNewWire made.old.items }
    ensures { OnOk result (All IsNewWire made.new.items) }
{
    let wire = conn(alloc, &bytes, fails)?;
    made.push(wire)?;
    Ok(())
}

fn conn(alloc: Global, bytes: &[u8], fails: &[u64]) -> Result<MemoryConn, Fail>
    ensures { IfOk result (λ made. IsNewWire made) }
{
    let source = MemorySource::new(alloc, bytes, fails)?;
    let sink = MemorySink::new(alloc, ROOM, &[])?;
    Ok(MemoryConn::new(source, sink))
}
