ghost use Rattle.std.specs.Prelude.{◌≡◌, ◌+◌, ◌<◌, ◌≤◌, ◌↔◌, ◌++◌, ◌∷◌, [], ◌==◌, ◌||◌, Some, slice_get, drop, take, length, find, option_map, IsErr, IsErrAnd, IsTrue, IfOk, IfErr, OnOk, OnErr, All};
ghost use Rattle.bus_types.specs.Causes.{HasCause, Rose};
ghost use Rattle.bus_types.specs.Counting.{next_count};
ghost use Rattle.bus_link.specs.Links.{TakesBack, with_port};
ghost use Rattle.bus_link.specs.Memory.{IsNewWire, new_link, told_of, faults_of, wire_faults, IsNewDoor, connect_fails, after_connect, after_failed_connect, served_of, with_wire, with_door};
ghost use Rattle.bus_link.specs.Listed.{is_listed};
ghost use Rattle.bus_link.specs.declared.fail.LinkFail.TheVariants as calls;

use crate::fail::{LinkFail, is_listed};
use crate::fault::OpenFault;
use crate::kept::Kept;
use crate::link::Link;
use crate::memory_door::{MemoryDoor, next_of};
use crate::opening::open_doors;
use bus_io::MemoryConn;
use bus_types::{Failed, NoMemory, Plan};
use std::alloc::Global;
use std::marker::Model;
use std::mem;
use std::vec::IntoIter;

/// How many doors that were shut a link in memory keeps.
const DOORS: usize = 4;

/// A link in memory, which tells everything, has the connections that it was made from, and fails at the calls that it was
/// told. It keeps the connections and doors that it takes back.
#[derive(Drop)]
pub struct MemoryLink {
    accepts: Vec<MemoryConn>,
    connects: IntoIter<MemoryConn>,
    listened: u64,
    connected: u64,
    port: Option<u16>,
    ports: Kept<u16>,
    hung_up: Kept<MemoryConn>,
    shut: Kept<MemoryDoor>,
    plan: Plan<LinkFail>,
}

impl Model for MemoryLink {
    ghost use Rattle.std.specs.Prelude.{All};
    ghost use Rattle.std.specs.Vec.Iter.{into_iter_items};
    ghost use Rattle.bus_link.specs.Memory.{Linked, IsNewWire};

    ghost Value = { Linked };

    ghost view = { λ l. record {
      accepts = l.accepts.items;
      connects = into_iter_items l.connects;
      listened = l.listened;
      connected = l.connected;
      port = l.port;
      ports = l.ports;
      hung_up = l.hung_up;
      shut = l.shut;
      fails = l.plan.fails.items;
      faults = l.plan.faults;
    } };

    ghost invariant = { λ l. (All IsNewWire l.accepts.items) × (All IsNewWire (into_iter_items l.connects)) };
}

// Counts a call, and answers its number.
fn next_call(calls: &mut u64) -> u64
    ensures number { result ≡ calls.old }
    ensures counted { calls.new ≡ next_count calls.old }
{
    let call = *calls;
    *calls = call.saturating_add(1);
    call
}

// The first door with this number.
fn numbered(doors: &[MemoryDoor], number: u32) -> Option<&MemoryDoor>
    ensures { option_map (λ d. d.now) result ≡ find (λ d. d.number == number) doors.now }
{
    doors.iter().find(|door| door.number() == number)
}

impl MemoryLink {
    /// A link that has these connections to accept and these to connect to, in order, and fails at the calls that are listed.
    /// The memory for what is handed back is taken here: for as many connections as there are to connect to, and for four doors.
    pub fn new(
        alloc: Global,
        accepts: Vec<MemoryConn>,
        connects: Vec<MemoryConn>,
        fails: &[LinkFail],
    ) -> Result<MemoryLink, NoMemory>
        requires accepts { All IsNewWire accepts.items }
        requires connects { All IsNewWire connects.items }
        ensures { IfOk result (λ link. link ≡ new_link accepts.items connects.items fails.now) }
    {
        let ports = Kept::new(alloc, connects.len())?;
        let hung_up = Kept::new(alloc, connects.len())?;
        let shut = Kept::new(alloc, DOORS)?;
        let plan = Plan::new(alloc, fails)?;
        Ok(MemoryLink {
            accepts,
            connects: connects.into_iter(),
            listened: 0,
            connected: 0,
            port: None,
            ports,
            hung_up,
            shut,
            plan,
        })
    }

    /// The connections that `hang_up` took back: as many of the first ones as there were to connect to.
    pub fn hung_up(&self) -> &[MemoryConn]
        ensures { result.now ≡ take self.now.hung_up.room self.now.hung_up.all }
    {
        self.hung_up.kept()
    }

    /// The connections that the first door with this number took back among the first four that were shut: as many of the first
    /// ones as it was given to accept. There are none where that door wasn't shut.
    pub fn served(&self, door: u32) -> &[MemoryConn]
        ensures { result.now ≡ served_of door (take self.now.shut.room self.now.shut.all) }
    {
        match numbered(self.shut.kept(), door) {
            None => &[],
            Some(door) => door.finished(),
        }
    }

    /// The port of the last `listen` that answered Ok.
    pub fn port(&self) -> Option<u16>
        ensures { result ≡ self.now.port }
    {
        self.port
    }

    /// The ports of the calls of `connect` that answered Ok, in order.
    pub fn ports(&self) -> &[u16]
        ensures { result.now ≡ take self.now.ports.room self.now.ports.all }
    {
        self.ports.kept()
    }

    // Takes a connection back.
    fn keep_wire(&mut self, peer: MemoryConn)
        ensures { self.new ≡ with_wire peer self.old }
    {
        self.hung_up.push(peer);
    }

    // Takes a door back.
    fn keep_door(&mut self, door: MemoryDoor)
        ensures { self.new ≡ with_door door self.old }
    {
        self.shut.push(door);
    }

    // Counts a connect, and answers whether it is listed to fail.
    fn connect_fails(&mut self) -> bool
        ensures listed { result ≡ is_listed self.old.fails (calls.Connect self.old.connected) }
        ensures counted { self.new ≡ record self.old { connected = next_count self.old.connected } }
    {
        let call = next_call(&mut self.connected);
        is_listed(&self.plan.fails, LinkFail::Connect(call))
    }

    // Counts a listen, and answers whether it is listed to fail.
    fn listen_fails(&mut self) -> bool
        ensures listed { result ≡ is_listed self.old.fails (calls.Listen self.old.listened) }
        ensures counted { self.new ≡ record self.old { listened = next_count self.old.listened } }
    {
        let call = next_call(&mut self.listened);
        is_listed(&self.plan.fails, LinkFail::Listen(call))
    }
}

impl Link for MemoryLink {
    type Peer = MemoryConn;

    type Door = MemoryDoor;

    ghost faults = { faults_of };

    ghost told = { λ l. Some (told_of l) };

    /// Makes the doors: of n doors, door i has the connections i, i + n and so on. `OpenFault::Failed` comes exactly at the
    /// listed calls. The connections to accept are gone from the link, also where memory runs out.
    fn listen(&mut self, alloc: Global, port: u16, doors: u32) -> Result<Vec<MemoryDoor>, OpenFault>
        requires some { 1 ≤ doors }
        requires most { doors ≤ 4 }
        ensures later { faults_of self.old ≤ faults_of self.new }
        ensures cause { IfErr result (λ fault. fault ≡ OpenFault.Failed → Rose (faults_of self.old) (faults_of self.new)) }
        ensures count { IfOk result (λ made. length made.items ≡ doors) }
        ensures fresh { IfOk result (λ made. All IsNewDoor made.items) }
        ensures told { OnOk result (told_of self.new ≡ with_port port (told_of self.old)) }
        ensures kept { OnErr result (told_of self.new ≡ told_of self.old) }
        ensures exact { IsTrue (is_listed self.old.fails (calls.Listen self.old.listened)) ↔ IsErrAnd result (λ fault. fault ≡ OpenFault.Failed) }
    {
        if self.listen_fails() {
            return Err(OpenFault::from(self.plan.fail()));
        }
        let conns = mem::replace(&mut self.accepts, Vec::new(alloc));
        let made = open_doors(alloc, conns, doors, &self.plan.fails)?;
        self.port = Some(port);
        Ok(made)
    }

    /// Gives the next connection to connect to. `Failed` comes exactly at the listed calls, and where none is left.
    fn connect(&mut self, port: u16) -> Result<MemoryConn, Failed>
        ensures fresh { IfOk result (λ peer. IsNewWire peer) }
        ensures exact { IsErr result ↔ IsTrue (connect_fails self.old) }
        ensures value { IfOk result (λ peer. slice_get self.old.connects 0 ≡ Some peer) }
        ensures ok { OnOk result (self.new ≡ after_connect port self.old) }
        ensures err { OnErr result (self.new ≡ after_failed_connect self.old) }
    {
        let listed = self.connect_fails();
        let Some(peer) = next_of(&mut self.connects) else {
            return Err(self.plan.fail());
        };
        if listed {
            return Err(self.plan.fail());
        }
        self.ports.push(port);
        Ok(peer)
    }

    #[tactic(auto, using(crate::proofs::Sums::sums))]
    /// Keeps the connection, where it has not yet kept as many as there were to connect to.
    fn hang_up(&mut self, peer: MemoryConn)
        ensures back { TakesBack (faults_of self.old) (faults_of self.new) (wire_faults peer) }
        ensures stands { self.new ≡ with_wire peer self.old }
    {
        self.keep_wire(peer);
    }

    #[tactic(auto, using(crate::proofs::Sums::sums))]
    /// Keeps the door, where it has not yet kept four.
    fn shut(&mut self, door: MemoryDoor)
        ensures back { TakesBack (faults_of self.old) (faults_of self.new) door.faults }
        ensures stands { self.new ≡ with_door door self.old }
    {
        self.keep_door(door);
    }
}
