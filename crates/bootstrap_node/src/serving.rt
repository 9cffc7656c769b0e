ghost use Rattle.std.specs.Prelude.{◌≡◌, ◌≤◌, ◌∷◌, [], true, option_map, length, OnOk, OnErr, IfOk, IfErr};
ghost use Rattle.bus_types.specs.Causes.{Rose};
ghost use Rattle.bus_link.specs.Links.{IsUnused, with_port};
ghost use Rattle.bootstrap_core.specs.Boot.{told};
ghost use Rattle.bootstrap_core.specs.Moving.{SameParts};
ghost use Rattle.bus_node.specs.Doors.{Visits};
ghost use Rattle.bootstrap_node.specs.Serving.{BootServes};
ghost use Rattle.bootstrap_node.specs.Listening.{ListensNot, DoorStops, IsDoorServed, ServesAll};

use crate::held::{Held, Start};
use crate::stop::Stop;
use bootstrap_core::Boot;
use bootstrap_server::serve_bootstrap;
use bus_http::ServeEnd;
use bus_io::Conn;
use bus_link::{Accept, Link, OpenFault};
use bus_node::{BootstrapWords, DoorEnd, Serves, serve_door};
use bus_stores::{Keeper, WindowLog};
use std::alloc::Global;
use std::marker::{Brand, PhantomData};
use std::sync::{Mutex, Wait};

/// A held bootstrap behind a lock, as what serves connections.
#[derive(Drop)]
struct Server<'a, G: WindowLog, K: Keeper, S: Start, R> {
    rt: &'a R,
    held: &'a Mutex<Held<G, K, S>>,
}

impl<'a, G: WindowLog, K: Keeper, S: Start, R: Wait> Serves for Server<'a, G, K, S, R> {
    ghost use Rattle.bootstrap_node.specs.Serving.{BootServes};

    ghost State = { Unit {0} };

    ghost state = { λ _. tt };

    ghost serves = { BootServes G.state K.state S.start };

    fn serve<C: Conn>(&mut self, alloc: Global, conn: &mut C) -> ServeEnd {
        serve_bootstrap(self.rt, alloc, self.held, conn)
    }
}

/// Serves so many connections at a port by a bootstrap, and hands it back. The door is shut at each end.
pub(crate) fn serve<R: Wait, L: Link, G: WindowLog + Drop, K: Keeper + Drop>(
    rt: &R,
    alloc: Global,
    words: &BootstrapWords,
    link: &mut L,
    boot: Boot<G, K>,
) -> (Result<(), Stop>, Boot<G, K>)
    ensures serves { ServesAll L.Peer.given L.Peer.left L.Peer.written G.state K.state result.0 words.now.port words.now.connections
        (told G.state K.state boot) (told G.state K.state result.1) (L.told link.old) (L.told link.new) (L.faults link.old) (L.faults link.new) }
{
    let mut door = match listen(alloc, link, words.port) {
        Ok(door) => door,
        Err(stop) => return (Err(stop), boot),
    };
    let (end, boot) = serve_at::<Brand, R, L::Door, G, K>(
        rt,
        alloc,
        &mut door,
        words.connections,
        boot,
    );
    link.shut(door);
    (served(end), boot)
}

// What the end of a door's serving is to a run.
fn served(end: DoorEnd) -> Result<(), Stop>
    ensures { DoorStops result end }
{
    if end.failed {
        return Err(Stop::LinkFault);
    }
    if end.short {
        return Err(Stop::NoMemory);
    }
    Ok(())
}

// One new door to a port.
fn listen<L: Link>(alloc: Global, link: &mut L, port: u16) -> Result<L::Door, Stop>
    ensures fresh { IfOk result (λ door. IsUnused (L.Door.finished door) (L.Door.faults door)) }
    ensures told { OnOk result (L.told link.new ≡ option_map (with_port port) (L.told link.old)) }
    ensures kept { OnErr result (L.told link.new ≡ L.told link.old) }
    ensures stop { IfErr result (λ stop. ListensNot stop (L.faults link.old) (L.faults link.new)) }
    ensures later { L.faults link.old ≤ L.faults link.new }
{
    match link.listen(alloc, port, 1) {
        Ok(doors) => Ok(only(doors)),
        Err(OpenFault::Failed) => Err(Stop::LinkFault),
        Err(OpenFault::NoMemory) => Err(Stop::NoMemory),
    }
}

// The one item of a list.
fn only<D: Drop>(items: Vec<D>) -> D
    requires { length items.items ≡ 1 }
    ensures { items.items ≡ result ∷ [] }
{
    let mut items = items;
    match items.pop() {
        Some(item) => item,
        None => unreachable!(),
    }
}

// Serves so many connections at a door by a bootstrap, and hands it back.
fn serve_at<S: Start, R: Wait, D: Accept, G: WindowLog + Drop, K: Keeper + Drop>(
    rt: &R,
    alloc: Global,
    door: &mut D,
    connections: u32,
    boot: Boot<G, K>,
) -> (DoorEnd, Boot<G, K>)
    requires { S.start ≡ told G.state K.state boot }
    ensures same { SameParts S.start (told G.state K.state result.1) }
    ensures served { IsDoorServed (Visits (BootServes G.state K.state S.start) D.Peer.given D.Peer.left D.Peer.written) connections result.0
        (D.finished door.old) (D.finished door.new) }
    ensures later { D.faults door.old ≤ D.faults door.new }
    ensures cause { result.0.failed ≡ true → Rose (D.faults door.old) (D.faults door.new) }
{
    let held = Mutex::new(Held {
        boot,
        of: PhantomData::<S>,
    });
    let end = serve_held(rt, alloc, door, connections, &held);
    let Held { boot, of: _ } = held.into_inner();
    (end, boot)
}

// Serves so many connections at a door by a held bootstrap behind a lock.
fn serve_held<S: Start, R: Wait, D: Accept, G: WindowLog + Drop, K: Keeper + Drop>(
    rt: &R,
    alloc: Global,
    door: &mut D,
    connections: u32,
    held: &Mutex<Held<G, K, S>>,
) -> DoorEnd
    ensures served { IsDoorServed (Visits (BootServes G.state K.state S.start) D.Peer.given D.Peer.left D.Peer.written) connections result
        (D.finished door.old) (D.finished door.new) }
    ensures later { D.faults door.old ≤ D.faults door.new }
    ensures cause { result.failed ≡ true → Rose (D.faults door.old) (D.faults door.new) }
{
    let mut server = Server { rt, held };
    serve_door(alloc, door, &mut server, connections)
}
