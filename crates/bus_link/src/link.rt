ghost use Rattle.std.specs.Prelude.{◌≡◌, ◌+◌, ◌++◌, ◌∷◌, [], ◌≤◌, List, ℕ, Option, option_map, length, All, OnOk, OnErr, IfOk, IfErr};
ghost use Rattle.bus_types.specs.Causes.{HasCause, Rose};
ghost use Rattle.bus_link.specs.Links.{Told, IsFresh, IsUnused, TakesBack, with_port, with_dial, with_hung_up, with_shut};

use crate::fault::OpenFault;
use bus_io::Conn;
use bus_types::Failed;
use std::alloc::Global;

/// A door, at which connections are accepted one after another.
pub trait Accept {
    /// Its connections.
    type Peer: Conn + Drop;

    /// How often it has failed. It has no greatest value, and a new door has 0.
    ghost faults: { Self → ℕ };

    /// The connections that it took back, in order, where it tells them. A new door has none.
    ghost finished: { Self → Option (List Self.Peer) };

    /// The next connection, which gave nothing, to which nothing was written, and whose counts are 0. `Failed` comes only
    /// where the count of faults rose. What was taken back stands.
    fn accept(&mut self) -> Result<Self::Peer, Failed>
        ensures cause { HasCause (faults self.old) (faults self.new) result }
        ensures fresh { IfOk result (λ peer. IsFresh (Self.Peer.given peer) (Self.Peer.written peer)
            (Self.Peer.Source.faults peer) (Self.Peer.Sink.faults peer)) }
        ensures kept { finished self.new ≡ finished self.old };

    /// Takes a served connection back. Its count of faults is added to no other.
    fn finish(&mut self, peer: Self::Peer)
        ensures faults { faults self.new ≡ faults self.old }
        ensures finished { finished self.new ≡ option_map (λ peers. peers ++ peer ∷ []) (finished self.old) };
}

/// What connects to ports, and listens at them. Each call leaves all that it tells but what is named there.
pub trait Link {
    /// The connections, those that are connected and those that are accepted.
    type Peer: Conn + Drop;

    /// The doors.
    type Door: Accept<Peer = Self::Peer> + Drop;

    /// How often it has failed, with what the connections and doors that it took back had failed. It has no greatest value.
    ghost faults: { Self → ℕ };

    /// What it tells of its calls, where it tells it.
    ghost told: { Self → Option (Told Self.Peer) };

    /// So many new doors to one port. `OpenFault::Failed` comes only where the count of faults rose, and
    /// `OpenFault::NoMemory` where memory ran out. The port is told where it answers Ok.
    fn listen(&mut self, alloc: Global, port: u16, doors: u32) -> Result<Vec<Self::Door>, OpenFault>
        requires some { 1 ≤ doors }
        requires most { doors ≤ 4 }
        ensures later { faults self.old ≤ faults self.new }
        ensures cause { IfErr result (λ fault. fault ≡ OpenFault.Failed → Rose (faults self.old) (faults self.new)) }
        ensures count { IfOk result (λ made. length made.items ≡ doors) }
        ensures fresh { IfOk result (λ made. All (λ door. IsUnused (Self.Door.finished door) (Self.Door.faults door)) made.items) }
        ensures told { OnOk result (told self.new ≡ option_map (with_port port) (told self.old)) }
        ensures kept { OnErr result (told self.new ≡ told self.old) };

    /// A connection to a port, which gave nothing, to which nothing was written, and whose counts are 0. `Failed` comes only
    /// where the count of faults rose. The port is told where it answers Ok.
    fn connect(&mut self, port: u16) -> Result<Self::Peer, Failed>
        ensures cause { HasCause (faults self.old) (faults self.new) result }
        ensures fresh { IfOk result (λ peer. IsFresh (Self.Peer.given peer) (Self.Peer.written peer)
            (Self.Peer.Source.faults peer) (Self.Peer.Sink.faults peer)) }
        ensures told { OnOk result (told self.new ≡ option_map (with_dial port) (told self.old)) }
        ensures kept { OnErr result (told self.new ≡ told self.old) };

    /// Takes a connection back. The count of faults rises exactly where the connection's is above 0.
    fn hang_up(&mut self, peer: Self::Peer)
        ensures back { TakesBack (faults self.old) (faults self.new) (Self.Peer.Source.faults peer + Self.Peer.Sink.faults peer) }
        ensures told { told self.new ≡ option_map (with_hung_up peer) (told self.old) };

    /// Takes a door back, and tells from then on what that door took back. The count of faults rises exactly where the
    /// door's is above 0.
    fn shut(&mut self, door: Self::Door)
        ensures back { TakesBack (faults self.old) (faults self.new) (Self.Door.faults door) }
        ensures told { told self.new ≡ option_map (with_shut (Self.Door.finished door)) (told self.old) };
}
