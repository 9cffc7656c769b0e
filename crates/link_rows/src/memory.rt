ghost use Rattle.std.specs.Prelude.{IfOk, OnOk, All};
ghost use Rattle.bus_link.specs.Memory.{IsNewWire};

use bus_io::{MemoryConn, MemorySink, MemorySource, Source};
use bus_link::{Accept, Link, LinkFail, MemoryDoor, MemoryLink};
use std::alloc::Global;
use std::io;
use std::test::Fail;

/// Five connections to accept at two doors, where the third accept and the second listen are to fail.
pub fn show_doors(rt: &HostRuntime) -> Result<(), Fail> {
    let mut link = link_to_accept(rt.alloc())?;
    show_listens(rt, &mut link)
}

/// Three connections to connect to, where the second connect is to fail.
pub fn show_connects(rt: &HostRuntime) -> Result<(), Fail> {
    let mut link = link_to_connect(rt.alloc())?;
    show_dials(rt, &mut link)
}

fn link_to_accept(alloc: Global) -> Result<MemoryLink, Fail> {
    let accepts = conns(alloc, 65, 70)?;
    let fails = [LinkFail::Accept(2), LinkFail::Listen(1)];
    Ok(MemoryLink::new(alloc, accepts, Vec::new(alloc), &fails)?)
}

fn link_to_connect(alloc: Global) -> Result<MemoryLink, Fail> {
    let connects = conns(alloc, 97, 100)?;
    let fails = [LinkFail::Connect(1)];
    Ok(MemoryLink::new(alloc, Vec::new(alloc), connects, &fails)?)
}

// New connections whose peers send the bytes from `from` to before `to`, one each.
fn conns(alloc: Global, from: u8, to: u8) -> Result<Vec<MemoryConn>, Fail>
    ensures { IfOk result (λ made. All IsNewWire made.items) }
{
    let mut made = Vec::new(alloc);
    for byte in from..to {
        add(alloc, byte, &mut made)?;
    }
    Ok(made)
}

#[tactic(auto, using(crate::proofs::News::more))]
fn add(alloc: Global, byte: u8, made: &mut Vec<MemoryConn>) -> Result<(), Fail>
    requires { All IsNewWire made.old.items }
    ensures { OnOk result (All IsNewWire made.new.items) }
{
    let wire = conn(alloc, byte)?;
    made.push(wire)?;
    Ok(())
}

// A new connection whose peer sends one byte.
fn conn(alloc: Global, byte: u8) -> Result<MemoryConn, Fail>
    ensures { IfOk result (λ made. IsNewWire made) }
{
    let source = MemorySource::new(alloc, &[byte], &[])?;
    let sink = MemorySink::new(alloc, 16, &[])?;
    Ok(MemoryConn::new(source, sink))
}

// Listens twice, and accepts where it could.
fn show_listens(rt: &HostRuntime, link: &mut MemoryLink) -> Result<(), Fail> {
    show_two_doors(rt, link)?;
    show_served(rt, link)?;
    show_refusal(rt, link)
}

fn show_two_doors(rt: &HostRuntime, link: &mut MemoryLink) -> Result<(), Fail> {
    let Ok(doors) = link.listen(rt.alloc(), 7, 2) else {
        return Err(Fail::new("no doors"));
    };
    for door in doors {
        show_door(rt, link, door)?;
    }
    Ok(())
}

// Accepts at a door, and shuts it.
fn show_door(rt: &HostRuntime, link: &mut MemoryLink, mut door: MemoryDoor) -> io::Result<()> {
    let shown = show_accepts(rt, &mut door);
    link.shut(door);
    shown
}

// Accepts four times at a door.
fn show_accepts(rt: &HostRuntime, door: &mut MemoryDoor) -> io::Result<()> {
    for _ in 0..4 {
        show_accept(rt, door)?;
    }
    Ok(())
}

fn show_accept(rt: &HostRuntime, door: &mut MemoryDoor) -> io::Result<()> {
    let number = door.number();
    match accepted(door) {
        Some(byte) => println!(rt; "door {number} {byte}"),
        None => println!(rt; "door {number} Failed"),
    }
}

// Accepts at a door, reads a byte, and hands the connection back.
fn accepted(door: &mut MemoryDoor) -> Option<u8> {
    let mut peer = door.accept().ok()?;
    let byte = first(&mut peer);
    door.finish(peer);
    Some(byte)
}

// Prints how many connections the two doors took back.
fn show_served(rt: &HostRuntime, link: &MemoryLink) -> io::Result<()> {
    println!(rt; "served {} {}", link.served(0).len(), link.served(1).len())
}

fn show_refusal(rt: &HostRuntime, link: &mut MemoryLink) -> Result<(), Fail> {
    let Err(fault) = link.listen(rt.alloc(), 8, 1) else {
        return Err(Fail::new("doors"));
    };
    println!(rt; "{fault:?} {:?}", link.port())?;
    Ok(())
}

// Connects to four ports.
fn show_dials(rt: &HostRuntime, link: &mut MemoryLink) -> Result<(), Fail> {
    for port in 1..5 {
        show_dial(rt, link, port)?;
    }
    println!(rt;
        "ports {:?}\nhung up {}",
        link.ports(),
        link.hung_up().len()
    )?;
    Ok(())
}

fn show_dial(rt: &HostRuntime, link: &mut MemoryLink, port: u16) -> io::Result<()> {
    match connected(link, port) {
        Some(byte) => println!(rt; "connect {port} {byte}"),
        None => println!(rt; "connect {port} Failed"),
    }
}

// Connects to a port, reads a byte, and hands the connection back.
fn connected(link: &mut MemoryLink, port: u16) -> Option<u8> {
    let mut peer = link.connect(port).ok()?;
    let byte = first(&mut peer);
    link.hang_up(peer);
    Some(byte)
}

// The next byte of a connection, and 0 where there is none.
fn first(peer: &mut MemoryConn) -> u8 {
    let mut room = [0; 1];
    match peer.read(&mut room) {
        Ok(_) => room[0],
        Err(_) => 0,
    }
}
