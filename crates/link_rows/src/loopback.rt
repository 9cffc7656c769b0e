use bus_io::{Source, write_all};
use bus_link::{Accept, Link, TcpLink};
use std::net::TcpListener;
use std::test::Fail;

/// One connection over the loopback of this machine, in one thread: four bytes go one way, and then it ends.
pub fn show_loopback(rt: &HostRuntime) -> Result<(), Fail> {
    let listener = TcpListener::bind(rt, "127.0.0.1:0")?;
    let port = listener.local_addr()?.port();
    let mut link = TcpLink::over(rt.alloc(), rt, listener);
    show_link(rt, &mut link, port)
}

// Takes a ping at the one door of a link to a port.
fn show_link(rt: &HostRuntime, link: &mut impl Link, port: u16) -> Result<(), Fail> {
    let Ok(doors) = link.listen(rt.alloc(), port, 1) else {
        return Err(Fail::new("no doors"));
    };
    for door in doors {
        show_door(rt, link, door, port)?;
    }
    Ok(())
}

// Takes a ping at a door, and shuts it.
fn show_door<L: Link>(
    rt: &HostRuntime,
    link: &mut L,
    mut door: L::Door,
    port: u16,
) -> Result<(), Fail> {
    let shown = show_ping(rt, link, &mut door, port);
    link.shut(door);
    shown
}

// Sends a ping to a port, and takes it at a door.
fn show_ping(
    rt: &HostRuntime,
    link: &mut impl Link,
    door: &mut impl Accept,
    port: u16,
) -> Result<(), Fail> {
    send_ping(link, port)?;
    show_peer(rt, door)
}

// Connects, sends four bytes and hangs up.
fn send_ping(link: &mut impl Link, port: u16) -> Result<(), Fail> {
    let Ok(mut near) = link.connect(port) else {
        return Err(Fail::new("no connection"));
    };
    let sent = write_all(&mut near, b"ping");
    link.hang_up(near);
    sent.map_err(|_| Fail::new("a failed write"))
}

// Accepts, reads what came, and hands the connection back.
fn show_peer(rt: &HostRuntime, door: &mut impl Accept) -> Result<(), Fail> {
    let Ok(mut far) = door.accept() else {
        return Err(Fail::new("nothing to accept"));
    };
    let shown = show_reads(rt, &mut far);
    door.finish(far);
    shown
}

// Reads the bytes, and then the end.
fn show_reads(rt: &HostRuntime, from: &mut impl Source) -> Result<(), Fail> {
    show_read(rt, from)?;
    show_read(rt, from)
}

// Reads up to four bytes, and prints what came.
fn show_read(rt: &HostRuntime, from: &mut impl Source) -> Result<(), Fail> {
    let mut room = [0; 4];
    let Ok(count) = from.read(&mut room) else {
        return Err(Fail::new("a failed read"));
    };
    println!(rt; "read {count} {room:?}")?;
    Ok(())
}
