use crate::gathering::Given;
use crate::words::shown;
use bus_io::MemoryConn;
use bus_link::MemoryLink;
use bus_top::NodeStatus;
use std::io;
use std::test::Fail;

/// Prints how a node ended, what it wrote, and what was written to each connection that came back.
pub fn show_end(rt: &HostRuntime, status: NodeStatus, given: &Given) -> Result<(), Fail> {
    show_status(rt, status)?;
    show_text(rt, "", given.out.bytes())?;
    show_link(rt, &given.link)
}

fn show_status(rt: &HostRuntime, status: NodeStatus) -> io::Result<()> {
    println!(rt; "    {} {status}", status.number())
}

// Prints a word and what was written.
fn show_text(rt: &HostRuntime, word: &str, bytes: &[u8]) -> Result<(), Fail> {
    let text = shown(rt.alloc(), bytes)?;
    println!(rt; "    {word}{text}")?;
    Ok(())
}

// Prints the ports of a link, and what was written to each connection that it took back.
fn show_link(rt: &HostRuntime, link: &MemoryLink) -> Result<(), Fail> {
    show_ports(rt, link)?;
    show_wires(rt, "asked ", link.hung_up())?;
    show_wires(rt, "served ", link.served(0))
}

fn show_ports(rt: &HostRuntime, link: &MemoryLink) -> io::Result<()> {
    println!(rt; "    port {:?}, ports {:?}", link.port(), link.ports())
}

fn show_wires(rt: &HostRuntime, word: &str, wires: &[MemoryConn]) -> Result<(), Fail> {
    for wire in wires {
        show_text(rt, word, wire.written())?;
    }
    Ok(())
}
