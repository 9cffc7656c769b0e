ghost use Rattle.std.specs.Prelude.{◌≡◌, ◌++◌, ◌≤◌, ◌<◌, Some, Err, length, take, IfOk, IfErr, IfSome};
ghost use Rattle.bus_types.specs.Causes.{Rose};
ghost use Rattle.bus_http.specs.declared.route.Side.{Side as SideValue};
ghost use Rattle.bus_http.specs.Head.{Means, told};
ghost use Rattle.bus_http.specs.Route.{IsAskOf};
ghost use Rattle.bus_http.specs.Requests.{unended, Reads, Takes, IsWithin, AnswersComing, WhereTold, Saw, IsReadFault};

use crate::coming::{Coming, read_to_end};
use crate::fault::{HeadFault, RequestFault};
use crate::head::read_head;
use crate::inbox::Inbox;
use crate::route::Side;
use bus_io::Source;
use bus_types::Failed;
use bus_wire::Ask;
use std::alloc::Global;

/// A request, as it was read.
#[derive(Debug, Drop)]
pub struct Request {
    /// What is asked.
    pub ask: Ask,
    /// Whether the connection is to be closed once it is answered.
    pub close: bool,
}

// Why a request is refused. Want of memory is no reason.
fn refused(fault: HeadFault) -> Option<RequestFault>
    ensures some { IfSome result (λ refused. told (Err fault) ≡ Some (Err refused)) }
    ensures read { IfSome result (λ refused. IsReadFault refused → ⊥) }
{
    match fault {
        HeadFault::BadHead => Some(RequestFault::BadHead),
        HeadFault::BadMethod => Some(RequestFault::BadMethod),
        HeadFault::NoSuchPath => Some(RequestFault::NoSuchPath),
        HeadFault::BadQuery { name } => Some(RequestFault::BadQuery { name }),
        HeadFault::NoMemory => None,
    }
}

// Takes the head of so many bytes of a request that isn't one, unless memory ran out.
fn refuse(inbox: &mut Inbox, end: usize, fault: HeadFault) -> RequestFault
    requires { end ≤ length inbox.old }
    ensures takes { (side : SideValue) → IfSome (told (Err fault)) (Means side (take end inbox.old))
        → Takes side end inbox.old (Err result) inbox.new }
    ensures read { IsReadFault result → ⊥ }
{
    let Some(refused) = refused(fault) else {
        return RequestFault::NoMemory;
    };
    inbox.skip(end);
    refused
}

// What bytes mean behind which the input has ended, and which hold no end of a head.
fn unended(held: &[u8]) -> Result<Option<Request>, RequestFault>
    requires { length held.now < 16384 }
    ensures unended { result ≡ unended (length held.now) }
    ensures ask { (side : SideValue) → IfOk result (λ found. IfSome found (λ request. IsAskOf side request.ask)) }
    ensures read { IfErr result (λ fault. IsReadFault fault → ⊥) }
{
    if held.is_empty() {
        Ok(None)
    } else {
        Err(RequestFault::BadHead)
    }
}

// Takes the request whose head has so many bytes.
fn take_request(
    alloc: Global,
    inbox: &mut Inbox,
    side: Side,
    end: usize,
) -> Result<Option<Request>, RequestFault>
    requires { end ≤ length inbox.old }
    ensures takes { Takes side end inbox.old result inbox.new }
    ensures ask { IfOk result (λ found. IfSome found (λ request. IsAskOf side request.ask)) }
    ensures read { IfErr result (λ fault. IsReadFault fault → ⊥) }
{
    match read_head(alloc, side, inbox.front(end)) {
        Ok(request) => {
            inbox.skip(end);
            Ok(Some(request))
        }
        Err(fault) => Err(refuse(inbox, end, fault)),
    }
}

// Answers what came of a head.
fn take_coming(
    alloc: Global,
    inbox: &mut Inbox,
    side: Side,
    coming: Coming,
) -> Result<Option<Request>, RequestFault>
    requires { IsWithin coming (length inbox.old) }
    ensures answers { AnswersComing side coming inbox.old result inbox.new }
    ensures ask { IfOk result (λ found. IfSome found (λ request. IsAskOf side request.ask)) }
    ensures read { IfErr result (λ fault. IsReadFault fault → ⊥) }
{
    match coming {
        Coming::Whole(end) => take_request(alloc, inbox, side, end),
        Coming::TooLong => Err(RequestFault::HeadTooLong),
        Coming::Ended => unended(inbox.held()),
    }
}

/// Reads the first request of what the inbox holds and the source gives, by the paths of a side. What was read beyond it stays
/// in the inbox. None comes exactly where the input ended between two requests. `HeadTooLong`, `BadHead`, `BadMethod`,
/// `NoSuchPath` and `BadQuery` come exactly where the request is refused so, the first that applies, and its head is taken;
/// `ReadFault` comes only where the source's count rose. After `ReadFault` and `NoMemory` nothing of the request was taken.
pub fn read_request<S: Source>(
    alloc: Global,
    inbox: &mut Inbox,
    from: &mut S,
    side: Side,
) -> Result<Option<Request>, RequestFault>
    // Of what the inbox held and the source had left, this is the first request, and both have the rest.
    ensures first { WhereTold (S.left from.old) (S.left from.new) (λ before after. Reads side (inbox.old ++ before) result (inbox.new ++ after)) }

    // An ask that the side answers and that keeps the rules of an ask.
    ensures ask { IfOk result (λ found. IfSome found (λ request. IsAskOf side request.ask)) }

    // The same by the bytes that came, also of a source that doesn't tell what it has left.
    ensures saw { Saw side (S.left from.old) (S.left from.new) (S.given from.old) (S.given from.new) inbox.old result inbox.new }
    ensures later { S.faults from.old ≤ S.faults from.new }
    ensures failed { IfErr result (λ fault. IsReadFault fault → Rose (S.faults from.old) (S.faults from.new)) }
    ensures beside { S.beside from.new ≡ S.beside from.old }
{
    match read_to_end(inbox, from) {
        Ok(coming) => take_coming(alloc, inbox, side, coming),
        Err(Failed) => Err(RequestFault::ReadFault),
    }
}
