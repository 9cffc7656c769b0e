ghost use Rattle.std.specs.Prelude.{◌≡◌, ℕ, ◌≤◌, false, List, [], IfOk, OnOk, IsErrOf};
ghost use Rattle.bus_types.specs.Causes.{Rose};
ghost use Rattle.bus_wire.specs.Asks.{IsAsk};
ghost use Rattle.bus_http.specs.Asking.{IsSized};
ghost use Rattle.client_switch.specs.Client.{Keeps, IsAskOf, asks, FloorKept};
ghost use Rattle.consume_node.specs.Polls.{port_of};
ghost use Rattle.consume_node.specs.Failing.{TellsFrom, KeepsTrue, Takes, Settles, Polled};

use crate::stop::Stop;
use bus_link::Link;
use bus_node::{ConsumeWords, exchange};
use bus_stores::Keeper;
use bus_types::NoMemory;
use bus_wire::Ask;
use client_switch::{AskRefusal, Client, TakeFault, Took};
use consumer_lines::stage_of;
use dispatcher::NoCallbacks;
use std::alloc::Global;
use trace_script::reply_line;

/// What the polls of a consumer go by.
#[derive(Clone, Copy, Debug, PartialEq, Eq)]
pub(crate) struct Polling {
    /// The port of its relay.
    pub relay: u16,
    /// The port of its bootstrap.
    pub bootstrap: u16,
    /// How many there are.
    pub polls: u32,
    /// The most bytes of a reply, 1 to 16,777,216.
    pub max: u32,
}

impl Polling {
    /// As the words of a consumer say.
    pub fn of(words: &ConsumeWords) -> Polling
        ensures { result ≡ record { relay = words.now.relay; bootstrap = words.now.bootstrap; polls = words.now.polls; max = words.now.max } }
    {
        Polling {
            relay: words.relay,
            bootstrap: words.bootstrap,
            polls: words.polls,
            max: words.max,
        }
    }

    // The port that an ask goes to.
    fn port_of(&self, ask: &Ask) -> u16
        ensures { result ≡ port_of self.now.relay self.now.bootstrap ask.now }
    {
        match ask {
            Ask::Stream { .. } => self.relay,
            _ => self.bootstrap,
        }
    }
}

// What a client asks.
fn next_ask(alloc: Global, client: &Client, max: u32) -> Result<Ask, NoMemory>
    requires runs { client.now.halted ≡ false }
    requires least { 1 ≤ max }
    requires most { max ≤ 16777216 }
    ensures asked { IfOk result (λ ask. IsAskOf client.now.filter (asks client.now max) ask) }
    ensures rules { IfOk result IsAsk }
    ensures sized { IfOk result IsSized }
{
    // Its mark keeps the rule of its kind.
    let _lawful = client.mark();
    match client.ask(alloc, max) {
        Ok(ask) => Ok(ask),
        Err(AskRefusal::NoMemory) => Err(NoMemory),
        Err(AskRefusal::Halted) => unreachable!(),
    }
}

// Lets a client take a reply to what it asked.
fn take<K: Keeper>(
    alloc: Global,
    client: &mut Client,
    ask: &Ask,
    reply: &[u8],
    keeper: &mut K,
) -> Result<Took, Stop>
    requires runs { client.old.halted ≡ false }
    requires asked { (most : ℕ) × IsAskOf client.old.filter (asks client.old most) ask.now }
    ensures takes { Takes result client.old client.new ask.now reply.now (K.state keeper.old) (K.state keeper.new) }
    ensures runs { OnOk result (client.new.halted ≡ false) }
    ensures keeps { OnOk result (Keeps (K.state keeper.old) client.old.mark → Keeps (K.state keeper.new) client.new.mark) }
    ensures floor { Keeps (K.state keeper.old) client.old.mark → FloorKept (K.state keeper.old) (K.state keeper.new) }
    ensures tells { TellsFrom (K.state keeper.old) (K.state keeper.new) }
    ensures good { (most : ℕ) → IsAskOf client.old.filter (asks client.old most) ask.now → KeepsTrue most client.old ask.now reply.now (K.state keeper.old) (K.state keeper.new) }
    ensures later { (K.state keeper.old).faults ≤ (K.state keeper.new).faults }
    ensures rose { IsErrOf result Stop.StoreFault → Rose (K.state keeper.old).faults (K.state keeper.new).faults }
    ensures no_link { IsErrOf result Stop.LinkFault → ⊥ }
{
    match client.take(alloc, ask, reply, keeper, &mut NoCallbacks) {
        Ok(took) => Ok(took),
        Err(TakeFault::BadReply { place }) => Err(Stop::BadReply(place)),
        Err(TakeFault::StoreFault) => Err(Stop::StoreFault),
        Err(TakeFault::NoMemory) => Err(Stop::NoMemory),
        Err(TakeFault::Halted) => unreachable!(),
        Err(TakeFault::Refused { .. }) => unreachable!(),
    }
}

// Lets a client take a reply to what it asked, and answers the line of it.
fn settle<K: Keeper>(
    alloc: Global,
    client: &mut Client,
    ask: &Ask,
    reply: &[u8],
    keeper: &mut K,
) -> Result<String, Stop>
    requires runs { client.old.halted ≡ false }
    requires asked { (most : ℕ) × IsAskOf client.old.filter (asks client.old most) ask.now }
    ensures settles { Settles result client.old client.new ask.now reply.now (K.state keeper.old) (K.state keeper.new) }
    ensures runs { OnOk result (client.new.halted ≡ false) }
    ensures keeps { OnOk result (Keeps (K.state keeper.old) client.old.mark → Keeps (K.state keeper.new) client.new.mark) }
    ensures floor { Keeps (K.state keeper.old) client.old.mark → FloorKept (K.state keeper.old) (K.state keeper.new) }
    ensures tells { TellsFrom (K.state keeper.old) (K.state keeper.new) }
    ensures good { (most : ℕ) → IsAskOf client.old.filter (asks client.old most) ask.now → KeepsTrue most client.old ask.now reply.now (K.state keeper.old) (K.state keeper.new) }
    ensures later { (K.state keeper.old).faults ≤ (K.state keeper.new).faults }
    ensures rose { IsErrOf result Stop.StoreFault → Rose (K.state keeper.old).faults (K.state keeper.new).faults }
    ensures no_link { IsErrOf result Stop.LinkFault → ⊥ }
{
    let stage = stage_of(client.mark());
    let took = take(alloc, client, ask, reply, keeper)?;
    let text = reply_line(alloc, &stage, &took.shape, reply.len() as u64)?;
    Ok(text)
}

/// One poll: the client asks, the ask goes to its peer over a connection of its own, and the client takes the reply. `body` is
/// where the reply is read to. The answer is the line of the poll.
pub(crate) fn poll<L: Link, K: Keeper>(
    alloc: Global,
    by: &Polling,
    client: &mut Client,
    link: &mut L,
    keeper: &mut K,
    body: &mut Vec<u8>,
) -> Result<String, Stop>
    requires runs { client.old.halted ≡ false }
    requires least { 1 ≤ by.now.max }
    requires most { by.now.max ≤ 16777216 }
    requires stored { Keeps (K.state keeper.old) client.old.mark }
    ensures polled { Polled L.Peer.given L.Peer.left L.Peer.written by.now.relay by.now.bootstrap by.now.max result client.old
        (K.state keeper.old) (L.told link.old) client.new (K.state keeper.new) (L.told link.new) }
    ensures runs { OnOk result (client.new.halted ≡ false) }
    ensures keeps { OnOk result (Keeps (K.state keeper.new) client.new.mark) }
    ensures floor { FloorKept (K.state keeper.old) (K.state keeper.new) }
    ensures tells { TellsFrom (K.state keeper.old) (K.state keeper.new) }
    ensures later_keeper { (K.state keeper.old).faults ≤ (K.state keeper.new).faults }
    ensures later_link { L.faults link.old ≤ L.faults link.new }
    ensures keeper_rose { IsErrOf result Stop.StoreFault → Rose (K.state keeper.old).faults (K.state keeper.new).faults }
    ensures link_rose { IsErrOf result Stop.LinkFault → Rose (L.faults link.old) (L.faults link.new) }
{
    let ask = next_ask(alloc, client, by.max)?;
    exchange(alloc, link, by.port_of(&ask), &ask, body)?;
    settle(alloc, client, &ask, body, keeper)
}
