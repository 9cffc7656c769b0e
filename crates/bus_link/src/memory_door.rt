ghost use Rattle.std.specs.Prelude.{◌≡◌, ◌+◌, ◌<◌, ◌≤◌, ◌↔◌, ◌++◌, ◌∷◌, [], Some, slice_get, drop, take, option_map, IsErr, IsTrue, IfOk, IfSome, All};
ghost use Rattle.std.specs.Vec.Iter.{into_iter_items};
ghost use Rattle.bus_types.specs.Causes.{HasCause};
ghost use Rattle.bus_link.specs.Links.{IsFresh};
ghost use Rattle.bus_link.specs.Memory.{IsNewWire, new_door, accept_fails, after_accept, next_accept, with_back};
ghost use Rattle.bus_link.specs.Listed.{is_listed};
ghost use Rattle.bus_link.specs.declared.fail.LinkFail.TheVariants as calls;

use crate::fail::{LinkFail, is_listed};
use crate::kept::Kept;
use crate::link::Accept;
use bus_io::MemoryConn;
use bus_types::{Failed, NoMemory, Plan};
use std::alloc::Global;
use std::marker::Model;
use std::vec::IntoIter;

/// A door in memory, which gives its connections and fails at the calls that it was told. It keeps those that it takes back.
#[derive(Drop)]
pub struct MemoryDoor {
    number: u32,
    doors: u32,
    // The place of its next connection in the list of those to accept.
    next: u64,
    left: IntoIter<MemoryConn>,
    back: Kept<MemoryConn>,
    plan: Plan<LinkFail>,
}

impl Model for MemoryDoor {
    ghost use Rattle.std.specs.Prelude.{All};
    ghost use Rattle.std.specs.Vec.Iter.{into_iter_items};
    ghost use Rattle.bus_link.specs.Memory.{Doorway, IsNewWire};

    ghost Value = { Doorway };

    ghost view = { λ d. record {
      number = d.number;
      doors = d.doors;
      next = d.next;
      left = into_iter_items d.left;
      back = d.back;
      fails = d.plan.fails.items;
      faults = d.plan.faults;
    } };

    ghost invariant = { λ d. All IsNewWire (into_iter_items d.left) };
}

/// The next of some connections.
pub(crate) fn next_of(left: &mut IntoIter<MemoryConn>) -> Option<MemoryConn>
    requires { All IsNewWire (into_iter_items left.old) }
    ensures value { result ≡ slice_get (into_iter_items left.old) 0 }
    ensures rest { into_iter_items left.new ≡ drop 1 (into_iter_items left.old) }
    ensures fresh { IfSome result IsNewWire }
    ensures others { All IsNewWire (into_iter_items left.new) }
{
    left.next()
}

impl MemoryDoor {
    /// A door of so many, with its number and these connections, which fails at the accepts that are listed.
    pub(crate) fn new(
        alloc: Global,
        number: u32,
        doors: u32,
        conns: Vec<MemoryConn>,
        fails: &[LinkFail],
    ) -> Result<MemoryDoor, NoMemory>
        requires { All IsNewWire conns.items }
        ensures { IfOk result (λ door. door ≡ new_door number doors conns.items fails.now) }
    {
        let back = Kept::new(alloc, conns.len())?;
        let plan = Plan::new(alloc, fails)?;
        Ok(MemoryDoor {
            number,
            doors,
            next: number as u64,
            left: conns.into_iter(),
            back,
            plan,
        })
    }

    /// Its number among the doors that were made with it, from 0.
    pub fn number(&self) -> u32
        ensures { result ≡ self.now.number }
    {
        self.number
    }

    /// The connections that it took back: as many of the first ones as it was given to accept.
    pub fn finished(&self) -> &[MemoryConn]
        ensures { result.now ≡ take self.now.back.room self.now.back.all }
    {
        self.back.kept()
    }

    // Counts an accept, and answers whether it is listed to fail.
    fn next_fails(&mut self) -> bool
        ensures listed { result ≡ is_listed self.old.fails (calls.Accept self.old.next) }
        ensures counted { self.new ≡ record self.old { next = next_accept self.old } }
    {
        let call = self.next;
        self.next = call.saturating_add(self.doors as u64);
        is_listed(&self.plan.fails, LinkFail::Accept(call))
    }
}

impl Accept for MemoryDoor {
    type Peer = MemoryConn;

    ghost faults = { λ d. d.faults };

    ghost finished = { λ d. Some d.back.all };

    /// Gives its next connection. `Failed` comes exactly at the listed calls, and where none is left.
    fn accept(&mut self) -> Result<MemoryConn, Failed>
        ensures cause { HasCause self.old.faults self.new.faults result }
        ensures fresh { IfOk result (λ peer. IsNewWire peer) }
        ensures exact { IsErr result ↔ IsTrue (accept_fails self.old) }
        ensures value { IfOk result (λ peer. slice_get self.old.left 0 ≡ Some peer) }
        ensures stands { self.new ≡ after_accept self.old }
    {
        let listed = self.next_fails();
        let Some(peer) = next_of(&mut self.left) else {
            return Err(self.plan.fail());
        };
        if listed {
            return Err(self.plan.fail());
        }
        Ok(peer)
    }

    /// Keeps the connection, where it has not yet kept as many as it was given to accept.
    fn finish(&mut self, peer: MemoryConn)
        ensures { self.new ≡ with_back peer self.old }
    {
        self.back.push(peer);
    }
}
