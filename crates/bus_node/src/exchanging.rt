ghost use Rattle.std.specs.Prelude.{◌≡◌, ◌+◌, ◌<◌, ◌≤◌, IsErrOf, OnErr, OnOk, length};
ghost use Rattle.std.specs.Io.KnownBytes.{Appends};
ghost use Rattle.bus_types.specs.Causes.{Rose};
ghost use Rattle.bus_link.specs.Links.{IsFresh};
ghost use Rattle.bus_wire.specs.Asks.{IsAsk};
ghost use Rattle.bus_http.specs.Asking.{IsSized, ask_text};
ghost use Rattle.bus_node.specs.Exchange.{Exchanged, IsAnswered, IsMisanswered, Gives, GivesNone, HandedBack};

use bus_http::{AnswerFault, AskFault, Inbox, read_answer, write_ask};
use bus_io::Conn;
use bus_link::Link;
use bus_wire::Ask;
use std::alloc::Global;

/// Why there was no reply to an ask. The connection was handed back, where there was one.
#[derive(Clone, Copy, Debug, PartialEq, Eq)]
pub enum ExchangeFault {
    /// The link failed, or the connection did: the link's count rose.
    LinkFault,
    /// What the peer wrote is no answer.
    BadAnswer,
    /// Memory ran out.
    NoMemory,
}

// Writes an ask to a new connection.
fn send<C: Conn>(alloc: Global, conn: &mut C, ask: &Ask) -> Result<(), ExchangeFault>
    requires rules { IsAsk ask.now }
    requires sized { IsSized ask.now }
    requires fresh { C.Sink.faults conn.old ≡ 0 }
    ensures asked { OnOk result (Appends (C.written conn.old) (C.written conn.new) (ask_text ask.now)) }
    ensures given { C.given conn.new ≡ C.given conn.old }
    ensures bad { IsErrOf result ExchangeFault.BadAnswer → ⊥ }
    ensures cause { IsErrOf result ExchangeFault.LinkFault → 0 < C.Source.faults conn.new + C.Sink.faults conn.new }
{
    match write_ask(alloc, conn, ask) {
        Ok(()) => Ok(()),
        Err(AskFault::WriteFault { .. }) => Err(ExchangeFault::LinkFault),
        Err(AskFault::NoMemory) => Err(ExchangeFault::NoMemory),
    }
}

// Reads an answer from a connection.
fn receive<C: Conn>(alloc: Global, conn: &mut C, body: &mut Vec<u8>) -> Result<(), ExchangeFault>
    ensures gives { OnOk result (Gives (C.given conn.old) (C.given conn.new) body.new.items) }
    ensures small { OnOk result (length body.new.items ≤ 16777216) }
    ensures none { IsErrOf result ExchangeFault.BadAnswer → GivesNone (C.given conn.old) (C.given conn.new) (C.left conn.new) }
    ensures written { C.written conn.new ≡ C.written conn.old }
    ensures cause { IsErrOf result ExchangeFault.LinkFault → 0 < C.Source.faults conn.new + C.Sink.faults conn.new }
{
    let Ok(mut inbox) = Inbox::new(alloc) else {
        return Err(ExchangeFault::NoMemory);
    };
    match read_answer(&mut inbox, conn, body) {
        Ok(()) => Ok(()),
        Err(AnswerFault::ReadFault) => Err(ExchangeFault::LinkFault),
        Err(AnswerFault::BadAnswer) => Err(ExchangeFault::BadAnswer),
        Err(AnswerFault::NoMemory) => Err(ExchangeFault::NoMemory),
    }
}

// Writes an ask to a new connection, and reads the answer.
fn talk<C: Conn>(
    alloc: Global,
    conn: &mut C,
    ask: &Ask,
    body: &mut Vec<u8>,
) -> Result<(), ExchangeFault>
    requires rules { IsAsk ask.now }
    requires sized { IsSized ask.now }
    requires fresh { IsFresh (C.given conn.old) (C.written conn.old) (C.Source.faults conn.old) (C.Sink.faults conn.old) }
    ensures answered { OnOk result (IsAnswered C.given C.left C.written ask.now body.new.items conn.new) }
    ensures small { OnOk result (length body.new.items ≤ 16777216) }
    ensures bad { IsErrOf result ExchangeFault.BadAnswer → IsMisanswered C.given C.left C.written ask.now conn.new }
    ensures cause { IsErrOf result ExchangeFault.LinkFault → 0 < C.Source.faults conn.new + C.Sink.faults conn.new }
{
    match send(alloc, conn, ask) {
        Ok(()) => receive(alloc, conn, body),
        Err(fault) => Err(fault),
    }
}

/// Makes one connection to a port, writes one ask to it, reads one answer, and hands the connection back. `body` is then the
/// body of the answer, of at most 16,777,216 bytes. `LinkFault` comes only where the link's count rose, and `BadAnswer` exactly
/// where what the connection gave doesn't begin with an answer.
pub fn exchange<L: Link>(
    alloc: Global,
    link: &mut L,
    port: u16,
    ask: &Ask,
    body: &mut Vec<u8>,
) -> Result<(), ExchangeFault>
    requires rules { IsAsk ask.now }
    requires sized { IsSized ask.now }
    ensures answered { OnOk result (Exchanged L.Peer (IsAnswered L.Peer.given L.Peer.left L.Peer.written ask.now body.new.items)
        port (L.told link.old) (L.told link.new)) }
    ensures small { OnOk result (length body.new.items ≤ 16777216) }
    ensures bad { IsErrOf result ExchangeFault.BadAnswer → Exchanged L.Peer
        (IsMisanswered L.Peer.given L.Peer.left L.Peer.written ask.now) port (L.told link.old) (L.told link.new) }
    ensures back { OnErr result (HandedBack L.Peer port (L.told link.old) (L.told link.new)) }
    ensures later { L.faults link.old ≤ L.faults link.new }
    ensures cause { IsErrOf result ExchangeFault.LinkFault → Rose (L.faults link.old) (L.faults link.new) }
{
    let Ok(mut conn) = link.connect(port) else {
        return Err(ExchangeFault::LinkFault);
    };
    let result = talk(alloc, &mut conn, ask, body);
    link.hang_up(conn);
    result
}
