ghost use Rattle.std.specs.Prelude.{◌≡◌, ◌≤◌, true, IfSome};
ghost use Rattle.bus_types.specs.Causes.{Rose};
ghost use Rattle.bus_http.specs.Route.{IsAskOf};
ghost use Rattle.bus_http.specs.Talks.{refusal_of, Served, IsReadEnd, IsWriteEnd};
ghost use Rattle.bus_http.specs.Turns.{silent_end, Refusing, Declining, Answering, Responding, Turned};

use crate::fault::RequestFault;
use crate::inbox::Inbox;
use crate::reply::Refused;
use crate::request::{Request, read_request};
use crate::sending::{send_refusal, send_reply};
use crate::service::{ServeEnd, Service, Unanswered};
use bus_io::{Conn, Sink};
use bus_types::Failed;
use std::alloc::Global;

/// The most answers of one connection.
pub const MAX_ANSWERS: u32 = 1_000_000;

// How a request is refused that is none.
fn refusal_of(fault: RequestFault) -> Option<Refused>
    ensures { result ≡ refusal_of fault }
{
    match fault {
        RequestFault::ReadFault => None,
        RequestFault::HeadTooLong => Some(Refused::HeadTooLarge),
        RequestFault::BadHead => Some(Refused::BadRequest),
        RequestFault::BadMethod => Some(Refused::MethodNotAllowed),
        RequestFault::NoSuchPath => Some(Refused::NotFound),
        RequestFault::BadQuery { .. } => Some(Refused::BadRequest),
        RequestFault::NoMemory => None,
    }
}

// The end of a connection on which nothing is said.
fn silent_end(fault: RequestFault) -> ServeEnd
    ensures value { result ≡ silent_end fault }
{
    match fault {
        RequestFault::ReadFault => ServeEnd::ReadFault,
        _ => ServeEnd::NoMemory,
    }
}

// Refuses a request, which ends the connection.
fn refuse<W: Sink>(out: &mut W, refused: Refused) -> ServeEnd
    ensures refusing { Refusing refused (W.written out.old) (W.written out.new) result }
    ensures later { W.faults out.old ≤ W.faults out.new }
    ensures risen { IsWriteEnd result → Rose (W.faults out.old) (W.faults out.new) }
    ensures beside { W.beside out.new ≡ W.beside out.old }
{
    match send_refusal(out, refused) {
        Ok(()) => ServeEnd::BadRequest(refused.status()),
        Err(Failed) => ServeEnd::WriteFault,
    }
}

/// Answers what was read in place of a request, which ends the connection: by a refusal, or silently after a fault of the source
/// and want of memory. `WriteFault` comes only where the sink's count rose.
pub fn decline<W: Sink>(out: &mut W, fault: RequestFault) -> ServeEnd
    ensures declining { Declining fault (W.written out.old) (W.written out.new) result }
    ensures later { W.faults out.old ≤ W.faults out.new }
    ensures risen { IsWriteEnd result → Rose (W.faults out.old) (W.faults out.new) }
    ensures beside { W.beside out.new ≡ W.beside out.old }
{
    match refusal_of(fault) {
        Some(refused) => refuse(out, refused),
        None => silent_end(fault),
    }
}

// Writes a reply, and says how the connection ends, where it does.
fn answer<W: Sink>(out: &mut W, body: &[u8], close: bool) -> Option<ServeEnd>
    ensures answering { Answering close body.now (W.written out.old) (W.written out.new) result }
    ensures later { W.faults out.old ≤ W.faults out.new }
    ensures risen { IfSome result (λ end. IsWriteEnd end → Rose (W.faults out.old) (W.faults out.new)) }
    ensures beside { W.beside out.new ≡ W.beside out.old }
{
    let Ok(()) = send_reply(out, body) else {
        return Some(ServeEnd::WriteFault);
    };
    if close {
        return Some(ServeEnd::Closed);
    }
    None
}

// Answers a request, and says how the connection ends, where it does.
fn respond<S: Service, W: Sink>(
    alloc: Global,
    service: &mut S,
    out: &mut W,
    body: &mut Vec<u8>,
    request: &Request,
) -> Option<ServeEnd>
    requires { IsAskOf S.side request.now.ask }
    ensures responding { Responding S.side S.may S.keeps S.sure (S.state service.old) (S.state service.new)
        request.now (W.written out.old) (W.written out.new) result }
    ensures later { W.faults out.old ≤ W.faults out.new }
    ensures risen { IfSome result (λ end. IsWriteEnd end → Rose (W.faults out.old) (W.faults out.new)) }
    ensures beside { W.beside out.new ≡ W.beside out.old }
{
    body.clear();
    match service.reply(alloc, &request.ask, body) {
        Ok(()) => answer(out, body, request.close),
        Err(Unanswered::Failed) => Some(refuse(out, Refused::ServerError)),
        Err(Unanswered::NoMemory) => Some(ServeEnd::NoMemory),
    }
}

// Reads and answers one request, and says how the connection ends, where it does.
fn turn<S: Service, C: Conn>(
    alloc: Global,
    service: &mut S,
    conn: &mut C,
    inbox: &mut Inbox,
    body: &mut Vec<u8>,
) -> Option<ServeEnd>
    ensures turned { Turned S.side S.may S.keeps S.sure (S.state service.old) (S.state service.new)
        (C.given conn.old) (C.given conn.new) (C.left conn.old) (C.left conn.new)
        (C.written conn.old) (C.written conn.new) inbox.old result inbox.new }
    ensures later { (C.Source.faults conn.old ≤ C.Source.faults conn.new) × (C.Sink.faults conn.old ≤ C.Sink.faults conn.new) }
    ensures read { IfSome result (λ end. IsReadEnd end → Rose (C.Source.faults conn.old) (C.Source.faults conn.new)) }
    ensures write { IfSome result (λ end. IsWriteEnd end → Rose (C.Sink.faults conn.old) (C.Sink.faults conn.new)) }
{
    let side = service.side();
    match read_request(alloc, inbox, conn, side) {
        Ok(None) => Some(ServeEnd::Closed),
        Ok(Some(request)) => respond(alloc, service, conn, body, &request),
        Err(fault) => Some(decline(conn, fault)),
    }
}

/// Answers the requests of a connection, one after another, by the replies of a service. `Closed` comes where the input ended
/// between two requests, or a request that asked to close was answered; `BadRequest` where a request was refused, with the status
/// that was written: 400, 404, 405 or 431 by the request, and 500 where the service failed, which a sure one doesn't; `ReadFault`
/// and `WriteFault` only where the connection's counts rose; `TooMany` behind the 1,000,000th answer, where its request didn't ask
/// to close, and then nothing more is read; `NoMemory` where memory ran out.
pub fn serve<S: Service, C: Conn>(alloc: Global, service: &mut S, conn: &mut C) -> ServeEnd
    ensures served { Served S.side S.may S.keeps S.sure (S.state service.old) (S.state service.new)
        (C.given conn.old) (C.given conn.new) (C.left conn.old) (C.left conn.new)
        (C.written conn.old) (C.written conn.new) result }
    ensures surely { S.sure ≡ true → result ≡ ServeEnd.BadRequest 500 → ⊥ }
    ensures later { (C.Source.faults conn.old ≤ C.Source.faults conn.new) × (C.Sink.faults conn.old ≤ C.Sink.faults conn.new) }
    ensures read { IsReadEnd result → Rose (C.Source.faults conn.old) (C.Source.faults conn.new) }
    ensures write { IsWriteEnd result → Rose (C.Sink.faults conn.old) (C.Sink.faults conn.new) }
{
    let Ok(mut inbox) = Inbox::new(alloc) else {
        return ServeEnd::NoMemory;
    };
    let mut body = Vec::new(alloc);
    let mut answered = 0;
    while answered < MAX_ANSWERS {
        if let Some(end) = turn(alloc, service, conn, &mut inbox, &mut body) {
            return end;
        }
        answered += 1;
    }
    ServeEnd::TooMany
}
