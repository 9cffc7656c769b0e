ghost use Rattle.std.specs.Prelude.{◌≡◌, IfSome};
ghost use Rattle.bus_types.specs.Timeline.{end_of};
ghost use Rattle.bus_types.specs.Relay.{new_relay};
ghost use Rattle.range_ring.specs.Words.{room_of};
ghost use Rattle.relay_node.specs.Feeding.{relay_after};
ghost use Rattle.relay_node.specs.Passing.{SeesAll, floor_in};
ghost use Rattle.relay_node.specs.Serving.{ServesRelay};

use bus_http::ServeEnd;
use bus_io::Conn;
use bus_types::{Everything, Timeline};
use range_ring::{Opened, Pass, Ring};
use relay_server::serve_relay;
use std::alloc::Global;
use std::marker::Model;
use std::sync::Wait;

/// A relay, all of whose windows were published on a ring, and which one pass serves over connections. Contracts see the
/// relay.
#[derive(Drop)]
pub(crate) struct Relaying<'r, R, T: Timeline> {
    rt: &'r R,
    ring: &'r Ring<T>,
    pass: Pass<T>,
    floor: u64,
    tail: u64,
}

impl<'r, R, T: Timeline> Model for Relaying<'r, R, T> {
    ghost use Rattle.bus_types.specs.Relay.{Relay};
    ghost use Rattle.range_ring.specs.Words.{room_of};
    ghost use Rattle.relay_node.specs.Passing.{relay_told, IsRelaying};

    ghost Value = { Relay };

    ghost view = { λ r. relay_told (room_of r.ring.now.limits) T.told r.floor r.tail };

    ghost invariant = { λ r. IsRelaying T.told r.ring.now r.pass r.floor r.tail };
}

impl<'r, R: Wait, T: Timeline> Relaying<'r, R, T> {
    /// The relay that a pass sees, where the newest window has this SCN.
    pub fn new(rt: &'r R, ring: &'r Ring<T>, pass: Pass<T>, tail: u64) -> Relaying<'r, R, T>
        requires home { pass.home ≡ ring.now }
        requires sees { SeesAll ring.now.limits T.told pass.evicted pass.published }
        requires end { IfSome T.told (λ windows. tail ≡ end_of windows) }
        ensures { IfSome T.told (λ windows. result ≡ relay_after (new_relay (room_of ring.now.limits)) windows) }
    {
        let mut pass = pass;
        let floor = find_floor(rt, ring, &mut pass);
        Relaying {
            rt,
            ring,
            pass,
            floor,
            tail,
        }
    }

    /// The SCN of the newest window that was evicted, or 0.
    pub fn floor(&self) -> u64
        ensures { result ≡ self.now.floor }
    {
        self.floor
    }

    /// The SCN of the newest window that was published, or 0.
    pub fn tail(&self) -> u64
        ensures { result ≡ self.now.tail }
    {
        self.tail
    }

    /// Serves a connection to its end.
    pub fn serve<C: Conn>(&mut self, alloc: Global, conn: &mut C) -> ServeEnd
        ensures { ServesRelay T.told self.old self.new (C.given conn.old) (C.given conn.new) (C.left conn.old) (C.left conn.new)
            (C.written conn.old) (C.written conn.new) result }
    {
        serve_relay(self.rt, alloc, self.ring, &mut self.pass, conn)
    }
}

// The SCN of the newest window that was evicted, or 0: that below which a pass finds no window.
fn find_floor<R: Wait, T: Timeline>(rt: &R, ring: &Ring<T>, pass: &mut Pass<T>) -> u64
    requires home { pass.old.home ≡ ring.now }
    requires sees { SeesAll ring.now.limits T.told pass.old.evicted pass.old.published }
    ensures home { pass.new.home ≡ ring.now }
    ensures sees { SeesAll ring.now.limits T.told pass.new.evicted pass.new.published }
    ensures floor { IfSome T.told (λ windows. result ≡ (relay_after (new_relay (room_of ring.now.limits)) windows).floor) }
{
    told_floor(pass.open(rt, ring, 0, &Everything, 0))
}

// The floor that a pass tells, or 0.
fn told_floor<T: Timeline>(found: Opened<'_, T, Everything>) -> u64
    ensures { result ≡ floor_in found.entry }
{
    match found {
        Opened::Range(_) => 0,
        Opened::NotFound { floor } => floor,
        Opened::Empty { .. } => 0,
        Opened::TooSmall { .. } => 0,
    }
}
