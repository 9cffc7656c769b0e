ghost use Rattle.std.specs.Prelude.{◌≡◌, ◌≤◌, ◌++◌, true, false, List, ℕ, Option, length, map, option_map, All, IfOk, OnErr};
ghost use Rattle.bus_types.specs.Causes.{Rose, HasCause};
ghost use Rattle.bus_http.specs.declared.service.ServeEnd.{ServeEnd as EndValue};
ghost use Rattle.bus_http.specs.declared.service.ServeEnd.TheVariants as ends;
ghost use Rattle.bus_node.specs.Doors.{Visit, Visits, Visited};

use bus_http::ServeEnd;
use bus_io::Conn;
use bus_link::Accept;
use bus_types::Failed;
use std::alloc::Global;

/// What serves one connection after another. Each type names, for contracts alone, its state, and how what was read and written,
/// and how it ended, hang together with the states before and after.
pub trait Serves {
    /// The type of its state.
    ghost State: { Type 0 };

    /// Its state.
    ghost state: { Self → State };

    /// How a connection is served: by the states before and after, what the connection gave, what it has left and what was
    /// written to it, each before and after where it tells it, and the end.
    ghost serves: { State → State → Option (List ℕ) → Option (List ℕ) → Option (List ℕ) → Option (List ℕ) → Option (List ℕ) → Option (List ℕ) → EndValue → Type 0 };

    /// Serves a connection to its end.
    fn serve<C: Conn>(&mut self, alloc: Global, conn: &mut C) -> ServeEnd
        ensures { serves (state self.old) (state self.new) (C.given conn.old) (C.given conn.new) (C.left conn.old) (C.left conn.new)
            (C.written conn.old) (C.written conn.new) result };
}

/// How the serving of a door's connections ended.
#[derive(Clone, Copy, Debug, PartialEq, Eq)]
pub struct DoorEnd {
    /// An accept failed, and the connections behind it were not served.
    pub failed: bool,
    /// A connection ended by want of memory.
    pub short: bool,
}

// Whether one ended by want of memory, or so did one before it.
fn is_short(short: bool, end: ServeEnd) -> bool
    ensures { result ≡ false → (short ≡ false) × (end ≡ ends.NoMemory → ⊥) }
{
    short || end == ServeEnd::NoMemory
}

// Accepts one connection, serves it to its end and hands it back. Where none was accepted, nothing was served.
fn visit<D: Accept, S: Serves>(
    alloc: Global,
    door: &mut D,
    service: &mut S,
) -> Result<ServeEnd, Failed>
    ensures visited { IfOk result (Visited S.serves D.Peer.given D.Peer.left D.Peer.written (D.finished door.old) (D.finished door.new)
        (S.state service.old) (S.state service.new)) }
    ensures kept { OnErr result ((D.finished door.new ≡ D.finished door.old) × (S.state service.new ≡ S.state service.old)) }
    ensures cause { HasCause (D.faults door.old) (D.faults door.new) result }
{
    let Ok(mut peer) = door.accept() else {
        return Err(Failed);
    };
    let end = service.serve(alloc, &mut peer);
    door.finish(peer);
    Ok(end)
}

/// Accepts so many connections at a door, serves each to its end, and hands it back to the door. A fault of a connection ends
/// that connection alone; a failed accept ends the serving, and comes only where the door's count rose.
pub fn serve_door<D: Accept, S: Serves>(
    alloc: Global,
    door: &mut D,
    service: &mut S,
    connections: u32,
) -> DoorEnd
    ensures served { (visits : List (Visit D.Peer S.State)) × (D.finished door.new ≡ option_map (λ peers. peers ++ map (λ v. v.peer) visits) (D.finished door.old))
        × Visits S.serves D.Peer.given D.Peer.left D.Peer.written (S.state service.old) (S.state service.new) visits
        × (length visits ≤ connections)
        × (result.failed ≡ false → length visits ≡ connections)
        × (result.short ≡ false → All (λ v. v.end ≡ ends.NoMemory → ⊥) visits) }
    ensures later { D.faults door.old ≤ D.faults door.new }
    ensures cause { result.failed ≡ true → Rose (D.faults door.old) (D.faults door.new) }
{
    let mut short = false;
    for _done in 0..connections {
        match visit(alloc, door, service) {
            Ok(end) => short = is_short(short, end),
            Err(Failed) => {
                return DoorEnd {
                    failed: true,
                    short,
                };
            }
        }
    }
    DoorEnd {
        failed: false,
        short,
    }
}
