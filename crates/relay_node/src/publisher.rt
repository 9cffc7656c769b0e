ghost use Rattle.std.specs.Prelude.{◌≡◌, ◌∷◌, [], length, OnOk, IfSome};
ghost use Rattle.bus_types.specs.Timeline.{end_of};
ghost use Rattle.bus_types.specs.Relay.{new_relay};
ghost use Rattle.ring_cells.specs.Entries.{IsAt};
ghost use Rattle.range_ring.specs.Words.{room_of};
ghost use Rattle.range_ring.specs.Belonging.{new_feeder, fresh_pass};
ghost use Rattle.relay_node.specs.Feeding.{relay_after};
ghost use Rattle.relay_node.specs.Pieces.{sent_after, new_sent};

use crate::past::Past;
use crate::relaying::Relaying;
use bus_types::{NoMemory, Timeline, Window};
use range_ring::{Feeder, Pass, Ring};
use ring_cells::Entry;
use std::alloc::Global;
use std::marker::Model;
use std::sync::Wait;

/// What publishes windows on a ring, one after another. Contracts see the ring, and the windows.
#[derive(Drop)]
pub(crate) struct Publisher<'r, R, T: Timeline> {
    rt: &'r R,
    ring: &'r Ring<T>,
    feeder: Feeder<T>,
    tail: u64,
    past: Past,
}

impl<'r, R, T: Timeline> Model for Publisher<'r, R, T> {
    ghost use Rattle.relay_node.specs.Pieces.{Sent, IsPublishing};

    ghost Value = { Sent };

    ghost view = { λ p. record { home = p.ring.now; windows = p.past } };

    ghost invariant = { λ p. IsPublishing p.ring.now p.feeder p.tail p.past };
}

impl<'r, R: Wait, T: Timeline> Publisher<'r, R, T> {
    /// What has published nothing yet.
    pub fn new(rt: &'r R, ring: &'r Ring<T>, feeder: Feeder<T>) -> Publisher<'r, R, T>
        requires { feeder ≡ new_feeder ring.now }
        ensures { result ≡ new_sent ring.now }
    {
        Publisher {
            rt,
            ring,
            feeder,
            tail: 0,
            past: Past::new(),
        }
    }

    /// The SCN of the newest window, or 0.
    pub fn tail(&self) -> u64
        ensures { result ≡ end_of self.now.windows }
    {
        self.tail
    }

    /// How many windows were published.
    pub fn count(&self) -> u64
        ensures { result ≡ length self.now.windows }
    {
        self.feeder.numbers().published
    }

    /// Publishes the window that follows the newest one. After want of memory nothing was published.
    pub fn publish(&mut self, alloc: Global, window: &Window) -> Result<(), NoMemory>
        requires chained { window.now.prev ≡ end_of self.old.windows }
        requires next { IsAt T.told (length self.old.windows) window.now }
        ensures { OnOk result (self.new ≡ sent_after self.old (window.now ∷ [])) }
    {
        let scn = window.scn();
        let position = self.feeder.numbers().published;
        let entry = Entry::new(alloc, window, position)?;
        self.feeder.publish(self.rt, self.ring, entry);
        self.tail = scn;
        self.past.push(window);
        Ok(())
    }

    /// The relay that published all windows, as a pass sees it that has seen nothing.
    pub fn relay(self, pass: Pass<T>) -> Relaying<'r, R, T>
        requires pass { pass ≡ fresh_pass self.home }
        requires all { IfSome T.told (λ windows. self.windows ≡ windows) }
        ensures { IfSome T.told (λ windows. result ≡ relay_after (new_relay (room_of self.entry.home.limits)) windows) }
    {
        let Publisher {
            rt,
            ring,
            mut feeder,
            tail,
            past: _,
        } = self;
        let mut pass = pass;
        let _numbers = feeder.numbers();
        pass.meet(ring, feeder.note(ring));
        Relaying::new(rt, ring, pass, tail)
    }
}
