ghost use Rattle.std.specs.Prelude.{◌≡◌, ℕ, ◌≤◌, ◌⊎◌, false, OnOk, IsErrOf};
ghost use Rattle.bus_types.specs.Causes.{Rose};
ghost use Rattle.client_switch.specs.Client.{Keeps, FloorKept};
ghost use Rattle.consume_node.specs.Runs.{IsDone, Stopped, Unheard, Misled, Unlawful, Unstored, Starved, IsCutOff, Broken, Unopened, HasNoMark, Ended, opened};
ghost use Rattle.consume_node.specs.Failing.{TellsFrom, Turned, Made, end_status};

use crate::poll::{Polling, poll};
use crate::show::{shown, write};
use crate::stop::Stop;
use bus_io::Sink;
use bus_link::Link;
use bus_node::{ConsumeWords, NodeStatus};
use bus_stores::Keeper;
use client_switch::Client;
use std::alloc::Global;

/// Runs a consumer: it opens its client over the keeper, makes its polls, each over one connection to the relay or the bootstrap,
/// and writes a line of each as it comes. Behind the last it shows what the keeper holds.
///
/// `BadMark` comes where the keeper's stored mark is no mark's text, and nothing is asked. `LinkFault`, `StoreFault` and
/// `WriteFault` come only where the count of the link, the keeper or the output rose; `BadAnswer` where what a peer wrote is no
/// answer, and `BadReply` where it is no lawful reply to what was asked, with the place of its first item that can't stand;
/// `NoMemory` where memory ran out. Each of them ends the run: the lines of the polls before are written then, and every
/// connection was handed back.
pub fn run_consumer<W: Sink, L: Link, K: Keeper>(
    alloc: Global,
    words: ConsumeWords,
    out: &mut W,
    link: &mut L,
    keeper: &mut K,
) -> NodeStatus
    requires least { 1 ≤ words.max }
    requires most { words.max ≤ 16777216 }

    // It made all its polls, and what was written is their lines, and then what the keeper holds.
    ensures done { result ≡ NodeStatus.Done → IsDone L.Peer.given L.Peer.left L.Peer.written words (K.state keeper.old) (K.state keeper.new)
        (L.told link.old) (L.told link.new) (W.written out.old) (W.written out.new) }

    // The keeper's mark is none: nothing was asked and nothing written.
    ensures bad_mark { result ≡ NodeStatus.BadMark → Unopened (K.state keeper.old) (K.state keeper.new) (L.told link.old) (L.told link.new)
        (W.written out.old) (W.written out.new) × HasNoMark (K.state keeper.new) }

    // The peer of the poll behind those whose lines were written gave no answer, or no lawful reply.
    ensures bad_answer { result ≡ NodeStatus.BadAnswer → Stopped L.Peer.given L.Peer.left L.Peer.written words
        (Misled L.Peer.given L.Peer.left L.Peer.written words.relay words.bootstrap words.max) (K.state keeper.old) (K.state keeper.new)
        (L.told link.old) (L.told link.new) (W.written out.old) (W.written out.new) }
    ensures bad_reply { (place : ℕ) → result ≡ NodeStatus.BadReply place → Stopped L.Peer.given L.Peer.left L.Peer.written words
        (Unlawful L.Peer.given L.Peer.left L.Peer.written words.relay words.bootstrap words.max place) (K.state keeper.old) (K.state keeper.new)
        (L.told link.old) (L.told link.new) (W.written out.old) (W.written out.new) }

    // What stands after a fault of the link, the output or the keeper, or want of memory.
    ensures link_so_far { result ≡ NodeStatus.LinkFault → Stopped L.Peer.given L.Peer.left L.Peer.written words
        (Unheard L.Peer.given L.Peer.left L.Peer.written words.relay words.bootstrap words.max) (K.state keeper.old) (K.state keeper.new)
        (L.told link.old) (L.told link.new) (W.written out.old) (W.written out.new) }
    ensures written_so_far { result ≡ NodeStatus.WriteFault → Broken L.Peer.given L.Peer.left L.Peer.written words (K.state keeper.old)
        (K.state keeper.new) (L.told link.old) (L.told link.new) (W.written out.old) (W.written out.new) }
    ensures stored_so_far { result ≡ NodeStatus.StoreFault → IsCutOff L.Peer.given L.Peer.left L.Peer.written words
        (Unstored L.Peer.given L.Peer.left L.Peer.written words.relay words.bootstrap words.max) (K.state keeper.old) (K.state keeper.new)
        (L.told link.old) (L.told link.new) (W.written out.old) (W.written out.new) }
    ensures no_memory { result ≡ NodeStatus.NoMemory → IsCutOff L.Peer.given L.Peer.left L.Peer.written words
        (Starved L.Peer.given L.Peer.left L.Peer.written words.relay words.bootstrap words.max) (K.state keeper.old) (K.state keeper.new)
        (L.told link.old) (L.told link.new) (W.written out.old) (W.written out.new) }

    // No other status comes.
    ensures ended { Ended L.Peer.given L.Peer.left L.Peer.written words result (K.state keeper.old) (K.state keeper.new)
        (L.told link.old) (L.told link.new) (W.written out.old) (W.written out.new) }

    // A fault comes only where the count of what failed rose.
    ensures link_fault { result ≡ NodeStatus.LinkFault → Rose (L.faults link.old) (L.faults link.new) }
    ensures write_fault { result ≡ NodeStatus.WriteFault → Rose (W.faults out.old) (W.faults out.new) }
    ensures store_fault { result ≡ NodeStatus.StoreFault → Rose (K.state keeper.old).faults (K.state keeper.new).faults }

    // Whatever its peers answer, the floor of the stored mark doesn't fall.
    ensures floor { FloorKept (K.state keeper.old) (K.state keeper.new) }
{
    status_of(run(alloc, words, out, link, keeper))
}

// The status of a run that ended so.
fn status_of(run: Result<(), Stop>) -> NodeStatus
    ensures { result ≡ end_status run }
{
    match run {
        Ok(()) => NodeStatus::Done,
        Err(stop) => stop.status(),
    }
}

// Runs a consumer.
fn run<W: Sink, L: Link, K: Keeper>(
    alloc: Global,
    words: ConsumeWords,
    out: &mut W,
    link: &mut L,
    keeper: &mut K,
) -> Result<(), Stop>
    requires least { 1 ≤ words.max }
    requires most { words.max ≤ 16777216 }
    ensures ended { Ended L.Peer.given L.Peer.left L.Peer.written words (end_status result) (K.state keeper.old) (K.state keeper.new)
        (L.told link.old) (L.told link.new) (W.written out.old) (W.written out.new) }
    ensures link_fault { IsErrOf result Stop.LinkFault → Rose (L.faults link.old) (L.faults link.new) }
    ensures write_fault { IsErrOf result Stop.WriteFault → Rose (W.faults out.old) (W.faults out.new) }
    ensures store_fault { IsErrOf result Stop.StoreFault → Rose (K.state keeper.old).faults (K.state keeper.new).faults }
    ensures floor { FloorKept (K.state keeper.old) (K.state keeper.new) }
{
    let by = Polling::of(&words);
    let name = words.name;
    let mut client = Client::open(alloc, keeper, words.filter)?;
    make_polls(alloc, &by, &mut client, out, link, keeper)?;
    let text = shown(alloc, name.bytes(), client.mark(), keeper)?;
    write(out, &text)
}

// Makes the polls of a client.
fn make_polls<W: Sink, L: Link, K: Keeper>(
    alloc: Global,
    by: &Polling,
    client: &mut Client,
    out: &mut W,
    link: &mut L,
    keeper: &mut K,
) -> Result<(), Stop>
    requires runs { client.old.halted ≡ false }
    requires least { 1 ≤ by.now.max }
    requires most { by.now.max ≤ 16777216 }
    requires stored { Keeps (K.state keeper.old) client.old.mark }
    ensures made { Made L.Peer.given L.Peer.left L.Peer.written by.now.relay by.now.bootstrap by.now.max result client.old
        (K.state keeper.old) (L.told link.old) (W.written out.old) by.now.polls client.new (K.state keeper.new) (L.told link.new) (W.written out.new) }
    ensures keeps { OnOk result (Keeps (K.state keeper.new) client.new.mark) }
    ensures floor { FloorKept (K.state keeper.old) (K.state keeper.new) }
    ensures tells { TellsFrom (K.state keeper.old) (K.state keeper.new) }
    ensures later_keeper { (K.state keeper.old).faults ≤ (K.state keeper.new).faults }
    ensures later_link { L.faults link.old ≤ L.faults link.new }
    ensures later_out { W.faults out.old ≤ W.faults out.new }
    ensures link_fault { IsErrOf result Stop.LinkFault → Rose (L.faults link.old) (L.faults link.new) }
    ensures write_fault { IsErrOf result Stop.WriteFault → Rose (W.faults out.old) (W.faults out.new) }
    ensures store_fault { IsErrOf result Stop.StoreFault → Rose (K.state keeper.old).faults (K.state keeper.new).faults }
{
    let mut body = Vec::new(alloc);
    for _ in 0..by.polls {
        turn(alloc, by, client, out, link, keeper, &mut body)?;
    }
    Ok(())
}

// Makes a poll and writes its line.
fn turn<W: Sink, L: Link, K: Keeper>(
    alloc: Global,
    by: &Polling,
    client: &mut Client,
    out: &mut W,
    link: &mut L,
    keeper: &mut K,
    body: &mut Vec<u8>,
) -> Result<(), Stop>
    requires runs { client.old.halted ≡ false }
    requires least { 1 ≤ by.now.max }
    requires most { by.now.max ≤ 16777216 }
    requires stored { Keeps (K.state keeper.old) client.old.mark }
    ensures turned { Turned L.Peer.given L.Peer.left L.Peer.written by.now.relay by.now.bootstrap by.now.max result client.old
        (K.state keeper.old) (L.told link.old) (W.written out.old) client.new (K.state keeper.new) (L.told link.new) (W.written out.new) }
    ensures runs { OnOk result (client.new.halted ≡ false) }
    ensures keeps { OnOk result (Keeps (K.state keeper.new) client.new.mark) }
    ensures floor { FloorKept (K.state keeper.old) (K.state keeper.new) }
    ensures tells { TellsFrom (K.state keeper.old) (K.state keeper.new) }
    ensures later_keeper { (K.state keeper.old).faults ≤ (K.state keeper.new).faults }
    ensures later_link { L.faults link.old ≤ L.faults link.new }
    ensures later_out { W.faults out.old ≤ W.faults out.new }
    ensures link_fault { IsErrOf result Stop.LinkFault → Rose (L.faults link.old) (L.faults link.new) }
    ensures write_fault { IsErrOf result Stop.WriteFault → Rose (W.faults out.old) (W.faults out.new) }
    ensures store_fault { IsErrOf result Stop.StoreFault → Rose (K.state keeper.old).faults (K.state keeper.new).faults }
{
    let line = poll(alloc, by, client, link, keeper, body)?;
    write(out, line.as_bytes())
}
