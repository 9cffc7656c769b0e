ghost use Rattle.std.specs.Prelude.{◌≡◌, ◌≤◌, true, IfSome};
ghost use Rattle.bus_types.specs.Causes.{Rose};
ghost use Rattle.bus_http.specs.declared.route.Side.TheVariants.{Relay};
ghost use Rattle.bus_http.specs.Route.{IsAskOf};
ghost use Rattle.bus_http.specs.Talks.{IsReadEnd, IsWriteEnd};
ghost use Rattle.bus_http.specs.Turns.{Responding, Turned};
ghost use Rattle.relay_server.specs.Shared.{MayShare, KeepsPass};

use crate::stream::send_stream;
use bus_http::{Inbox, Request, ServeEnd, Side, decline, read_request};
use bus_io::{Conn, Sink};
use bus_types::Timeline;
use bus_wire::Ask;
use range_ring::{Pass, Ring};
use std::alloc::Global;
use std::sync::Wait;

// Answers a request by a pass, and says how the connection ends, where it does.
#[tactic(auto, using(crate::proofs::Streams::responded_open, crate::proofs::Streams::responded_closed, crate::proofs::Streams::responded_part))]
fn respond<T: Timeline, R: Wait, W: Sink>(
    rt: &R,
    ring: &Ring<T>,
    pass: &mut Pass<T>,
    out: &mut W,
    request: &Request,
) -> Option<ServeEnd>
    requires ask { IsAskOf Relay request.now.ask }
    requires home { pass.old.home ≡ ring.now }
    ensures home { pass.new.home ≡ ring.now }
    ensures responding { Responding Relay (MayShare T.told) KeepsPass true pass.old pass.new request.now (W.written out.old) (W.written out.new) result }
    ensures later { W.faults out.old ≤ W.faults out.new }
    ensures risen { IfSome result (λ end. IsWriteEnd end → Rose (W.faults out.old) (W.faults out.new)) }
    ensures beside { W.beside out.new ≡ W.beside out.old }
{
    let Ask::Stream { scn, filter, max } = &request.ask else {
        unreachable!();
    };
    let Ok(()) = send_stream(rt, ring, pass, *scn, filter, *max, out) else {
        return Some(ServeEnd::WriteFault);
    };
    if request.close {
        return Some(ServeEnd::Closed);
    }
    None
}

/// Reads and answers one request by a pass, and says how the connection ends, where it does.
pub(crate) fn turn<T: Timeline, C: Conn, R: Wait>(
    rt: &R,
    alloc: Global,
    ring: &Ring<T>,
    pass: &mut Pass<T>,
    conn: &mut C,
    inbox: &mut Inbox,
) -> Option<ServeEnd>
    requires { pass.old.home ≡ ring.now }
    ensures home { pass.new.home ≡ ring.now }
    ensures turned { Turned Relay (MayShare T.told) KeepsPass true pass.old pass.new
        (C.given conn.old) (C.given conn.new) (C.left conn.old) (C.left conn.new)
        (C.written conn.old) (C.written conn.new) inbox.old result inbox.new }
    ensures later { (C.Source.faults conn.old ≤ C.Source.faults conn.new) × (C.Sink.faults conn.old ≤ C.Sink.faults conn.new) }
    ensures read { IfSome result (λ end. IsReadEnd end → Rose (C.Source.faults conn.old) (C.Source.faults conn.new)) }
    ensures write { IfSome result (λ end. IsWriteEnd end → Rose (C.Sink.faults conn.old) (C.Sink.faults conn.new)) }
{
    match read_request(alloc, inbox, conn, Side::Relay) {
        Ok(None) => Some(ServeEnd::Closed),
        Ok(Some(request)) => respond(rt, ring, pass, conn, &request),
        Err(fault) => Some(decline(conn, fault)),
    }
}
