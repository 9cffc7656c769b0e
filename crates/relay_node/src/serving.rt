ghost use Rattle.std.specs.Prelude.{◌≡◌, ◌≤◌, ◌++◌, true, false, List, length, map, option_map, All, OnOk, OnErr, IfOk, IfErr, IsErrOf};
ghost use Rattle.bus_types.specs.Causes.{Rose, HasCause};
ghost use Rattle.bus_types.specs.Relay.{Relay};
ghost use Rattle.bus_http.specs.declared.service.ServeEnd.TheVariants as ends;
ghost use Rattle.bus_link.specs.Links.{IsUnused, with_port};
ghost use Rattle.bus_node.specs.Doors.{Visit, Visits, Visited};
ghost use Rattle.relay_node.specs.Serving.{ServesRelay, ServesAll, ServesSome};
ghost use Rattle.relay_node.specs.Doorway.{ServesDoor};

use crate::relaying::Relaying;
use bus_http::ServeEnd;
use bus_link::{Accept, Link, OpenFault};
use bus_node::DoorEnd;
use bus_types::{Failed, Timeline};
use std::alloc::Global;
use std::sync::Wait;

/// Why a relay was not served over all its connections.
#[derive(Clone, Copy, Debug, PartialEq, Eq)]
pub(crate) enum ServeFault {
    /// The link did not listen, or an accept failed: the link's count rose.
    LinkFault,
    /// Memory ran out.
    NoMemory,
}

/// Listens at a port with one door, serves a relay over so many connections, one after another, and shuts the door.
pub(crate) fn serve_at<R: Wait, T: Timeline, L: Link>(
    alloc: Global,
    port: u16,
    connections: u32,
    relaying: &mut Relaying<'_, R, T>,
    link: &mut L,
) -> Result<(), ServeFault>
    ensures serves { OnOk result (ServesAll L.Peer.given L.Peer.left L.Peer.written T.told port connections relaying.old
        (L.told link.old) (L.told link.new)) }
    ensures some { OnErr result (ServesSome L.Peer.given L.Peer.left L.Peer.written T.told port connections relaying.old
        (L.told link.old) (L.told link.new)) }
    ensures cause { IsErrOf result ServeFault.LinkFault → Rose (L.faults link.old) (L.faults link.new) }
{
    let door = match open_door(alloc, port, link) {
        Ok(door) => door,
        Err(OpenFault::Failed) => return Err(ServeFault::LinkFault),
        Err(OpenFault::NoMemory) => return Err(ServeFault::NoMemory),
    };
    let end = serve_and_shut(alloc, connections, relaying, door, link);
    if end.failed {
        return Err(ServeFault::LinkFault);
    }
    if end.short {
        return Err(ServeFault::NoMemory);
    }
    Ok(())
}

// A new door at a port.
fn open_door<L: Link>(alloc: Global, port: u16, link: &mut L) -> Result<L::Door, OpenFault>
    ensures fresh { IfOk result (λ door. IsUnused (L.Door.finished door) (L.Door.faults door)) }
    ensures told { OnOk result (L.told link.new ≡ option_map (with_port port) (L.told link.old)) }
    ensures kept { OnErr result (L.told link.new ≡ L.told link.old) }
    ensures later { L.faults link.old ≤ L.faults link.new }
    ensures cause { IfErr result (λ fault. fault ≡ OpenFault.Failed → Rose (L.faults link.old) (L.faults link.new)) }
{
    let mut doors = link.listen(alloc, port, 1)?;
    let Some(door) = doors.pop() else {
        unreachable!();
    };
    Ok(door)
}

// Serves a relay at a door over so many connections, and shuts it.
fn serve_and_shut<R: Wait, T: Timeline, L: Link>(
    alloc: Global,
    connections: u32,
    relaying: &mut Relaying<'_, R, T>,
    door: L::Door,
    link: &mut L,
) -> DoorEnd
    requires { IsUnused (L.Door.finished door) (L.Door.faults door) }
    ensures serves { ServesDoor L.Peer.given L.Peer.left L.Peer.written T.told connections relaying.old result (L.told link.old) (L.told link.new) }
    ensures later { L.faults link.old ≤ L.faults link.new }
    ensures cause { result.failed ≡ true → Rose (L.faults link.old) (L.faults link.new) }
{
    let mut door = door;
    let end = serve_door(alloc, &mut door, relaying, connections);
    link.shut(door);
    end
}

// Accepts so many connections at a door, serves a relay over each to its end, and hands it back to the door. A fault of a
// connection ends that connection alone; a failed accept ends the serving.
fn serve_door<R: Wait, T: Timeline, D: Accept>(
    alloc: Global,
    door: &mut D,
    relaying: &mut Relaying<'_, R, T>,
    connections: u32,
) -> DoorEnd
    ensures served { (visits : List (Visit D.Peer Relay)) × (D.finished door.new ≡ option_map (λ peers. peers ++ map (λ v. v.peer) visits) (D.finished door.old))
        × Visits (ServesRelay T.told) D.Peer.given D.Peer.left D.Peer.written relaying.old relaying.new visits
        × (length visits ≤ connections)
        × (result.failed ≡ false → length visits ≡ connections)
        × (result.short ≡ false → All (λ v. v.end ≡ ends.NoMemory → ⊥) visits) }
    ensures later { D.faults door.old ≤ D.faults door.new }
    ensures cause { result.failed ≡ true → Rose (D.faults door.old) (D.faults door.new) }
{
    let mut short = false;
    for _done in 0..connections {
        match visit(alloc, door, relaying) {
            Ok(end) => short = is_short(short, end),
            Err(Failed) => {
                return DoorEnd {
                    failed: true,
                    short,
                };
            }
        }
    }
    DoorEnd {
        failed: false,
        short,
    }
}

// Accepts one connection, serves a relay over it to its end and hands it back. Where none was accepted, none was served.
fn visit<R: Wait, T: Timeline, D: Accept>(
    alloc: Global,
    door: &mut D,
    relaying: &mut Relaying<'_, R, T>,
) -> Result<ServeEnd, Failed>
    ensures visited { IfOk result (Visited (ServesRelay T.told) D.Peer.given D.Peer.left D.Peer.written (D.finished door.old) (D.finished door.new)
        relaying.old relaying.new) }
    ensures kept { OnErr result ((D.finished door.new ≡ D.finished door.old) × (relaying.new ≡ relaying.old)) }
    ensures cause { HasCause (D.faults door.old) (D.faults door.new) result }
{
    let Ok(mut peer) = door.accept() else {
        return Err(Failed);
    };
    let end = relaying.serve(alloc, &mut peer);
    door.finish(peer);
    Ok(end)
}

// Whether a connection ended by want of memory, or so did one before it.
fn is_short(short: bool, end: ServeEnd) -> bool
    ensures { result ≡ false → (short ≡ false) × (end ≡ ends.NoMemory → ⊥) }
{
    short || end == ServeEnd::NoMemory
}
