ghost use Rattle.std.specs.Prelude.{◌≡◌, ◌≤◌, true};
ghost use Rattle.bus_types.specs.Causes.{Rose};
ghost use Rattle.bus_http.specs.declared.route.Side.TheVariants.{Boot};
ghost use Rattle.bus_http.specs.Talks.{Served, IsReadEnd, IsWriteEnd};
ghost use Rattle.bootstrap_server.specs.Locked.{MayLocked, KeepsLocked};

use crate::locked::Locked;
use bootstrap_core::Replies;
use bus_http::{ServeEnd, serve};
use bus_io::Conn;
use std::alloc::Global;
use std::sync::{Mutex, Wait};

/// Answers the requests of a connection for a bootstrap, one after another, by the replies of what stands behind the lock, which is
/// held for one reply, and not while the connection is read or written. `Closed` comes where the input ended between two requests,
/// or a request that asked to close was answered; `BadRequest` where a request was refused, with the status that was written: 400,
/// 404, 405 or 431 by the request, and 500 where there was no reply for another reason than want of memory; `ReadFault` and
/// `WriteFault` only where the connection's counts rose; `TooMany` behind the 1,000,000th answer, where its request didn't ask to
/// close, and then nothing more is read; `NoMemory` where memory ran out.
pub fn serve_bootstrap<B: Replies, C: Conn, R: Wait>(
    rt: &R,
    alloc: Global,
    boot: &Mutex<B>,
    conn: &mut C,
) -> ServeEnd
    // Of the bytes that the connection gave and of those that were written to it, this is the talk.
    ensures served { Served Boot (MayLocked B.may) KeepsLocked B.sure tt tt (C.given conn.old) (C.given conn.new) (C.left conn.old) (C.left conn.new)
        (C.written conn.old) (C.written conn.new) result }

    // What is sure never fails.
    ensures surely { B.sure ≡ true → result ≡ ServeEnd.BadRequest 500 → ⊥ }
    ensures later { (C.Source.faults conn.old ≤ C.Source.faults conn.new) × (C.Sink.faults conn.old ≤ C.Sink.faults conn.new) }
    ensures read { IsReadEnd result → Rose (C.Source.faults conn.old) (C.Source.faults conn.new) }
    ensures write { IsWriteEnd result → Rose (C.Sink.faults conn.old) (C.Sink.faults conn.new) }
{
    let mut locked = Locked { rt, boot };
    serve(alloc, &mut locked, conn)
}
