ghost use Rattle.std.specs.Prelude.{◌≡◌, ◌≤◌, true};
ghost use Rattle.bus_types.specs.Causes.{Rose};
ghost use Rattle.bus_http.specs.declared.route.Side.TheVariants.{Relay};
ghost use Rattle.bus_http.specs.Talks.{Served, IsReadEnd, IsWriteEnd};
ghost use Rattle.relay_server.specs.Shared.{MayShare, KeepsPass, IsBehind};

use crate::turning::turn;
use bus_http::{Inbox, MAX_ANSWERS, ServeEnd};
use bus_io::Conn;
use bus_types::Timeline;
use range_ring::{Pass, Ring};
use std::alloc::Global;
use std::sync::Wait;

/// Answers the requests of a connection for a relay, one after another, by one pass of a shared ring. The bytes of windows are
/// written from where they stand in the ring, or gathered with the head where an answer has at most 65,536 bytes. While windows are
/// written the feeder may have to wait for their cells. Each answer looks at the ring again, and may wait where the ring went on
/// meanwhile. `Closed` comes where the input ended between two requests, or a request that asked to close was answered;
/// `BadRequest` where a request was refused, with the status that was written: 400, 404, 405 or 431; `ReadFault` and `WriteFault`
/// only where the connection's counts rose; `TooMany` behind the 1,000,000th answer, where its request didn't ask to close, and
/// then nothing more is read; `NoMemory` where memory ran out. The pass serves another connection then.
pub fn serve_relay<T: Timeline, C: Conn, R: Wait>(
    rt: &R,
    alloc: Global,
    ring: &Ring<T>,
    pass: &mut Pass<T>,
    conn: &mut C,
) -> ServeEnd
    requires { pass.old.home ≡ ring.now }

    // Of the bytes that the connection gave and of those that were written to it, this is the talk: each body is the relay's reply
    // at the numbers that the pass has seen then, which aren't below those that it had seen and are such as the ring has.
    ensures served { Served Relay (MayShare T.told) KeepsPass true pass.old pass.new (C.given conn.old) (C.given conn.new)
        (C.left conn.old) (C.left conn.new) (C.written conn.old) (C.written conn.new) result }
    ensures behind { IsBehind pass.old pass.new }
    ensures surely { result ≡ ServeEnd.BadRequest 500 → ⊥ }
    ensures later { (C.Source.faults conn.old ≤ C.Source.faults conn.new) × (C.Sink.faults conn.old ≤ C.Sink.faults conn.new) }
    ensures read { IsReadEnd result → Rose (C.Source.faults conn.old) (C.Source.faults conn.new) }
    ensures write { IsWriteEnd result → Rose (C.Sink.faults conn.old) (C.Sink.faults conn.new) }
{
    let Ok(mut inbox) = Inbox::new(alloc) else {
        return ServeEnd::NoMemory;
    };
    let mut answered = 0;
    while answered < MAX_ANSWERS {
        if let Some(end) = turn(rt, alloc, ring, pass, conn, &mut inbox) {
            return end;
        }
        answered += 1;
    }
    ServeEnd::TooMany
}
