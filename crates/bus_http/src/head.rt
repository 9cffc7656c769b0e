ghost use Rattle.std.specs.Prelude.{◌≡◌, ◌≤◌, map, take, length, All, Some, IfOk, IfSome, IfNone};
ghost use Rattle.std.specs.List.{list_any};
ghost use Rattle.httparse.specs.Grammar.{RequestHead};
ghost use Rattle.httparse.specs.Spans.{IsWithin, IsHeaderWithin, IsRequestWithin, IsRequestAt, header_bytes, span_bytes};
ghost use Rattle.bus_wire.specs.Asks.{IsAsk};
ghost use Rattle.bus_http.specs.Asking.{IsSized};
ghost use Rattle.bus_http.specs.Route.{parts_of, route_of, AsksBy, IsAskOf};
ghost use Rattle.bus_http.specs.Head.{is_word, says_body, says_close, answered, requested, IsHead, told, Means};

use crate::fault::HeadFault;
use crate::request::Request;
use crate::route::{Route, Side, ask, parts_of, route_of};
use httparse::Status;
use httparse::spans::{EMPTY_HEADER_SPAN, HeaderSpan, RequestSpans, parse_request};
use std::alloc::Global;

/// The most header lines of a head.
pub(crate) const MAX_HEADERS: usize = 64;

// Whether a text is a word, in any case of letters.
pub(crate) fn is_word(text: &[u8], word: &[u8]) -> bool
    ensures { result ≡ is_word text.now word.now }
{
    text.eq_ignore_ascii_case(word)
}

// Whether a header says that a body follows.
fn says_body(name: &[u8], value: &[u8]) -> bool
    ensures { result ≡ says_body (name.now, value.now) }
{
    is_word(name, b"transfer-encoding")
        || (is_word(name, b"content-length") && value != b"0".as_slice())
}

// Whether a header asks to close.
fn says_close(name: &[u8], value: &[u8]) -> bool
    ensures { result ≡ says_close (name.now, value.now) }
{
    is_word(name, b"connection") && is_word(value, b"close")
}

// Whether a header of a head says that a body follows.
fn carries_body(text: &[u8], headers: &[HeaderSpan]) -> bool
    requires { All (IsHeaderWithin (length text.now)) headers.now }
    ensures { result ≡ list_any (λ h. says_body (header_bytes text.now h)) headers.now }
{
    headers.iter().any(|header| says_body(header.name.of(text), header.value.of(text)))
}

// Whether a header of a head asks to close.
fn asks_to_close(text: &[u8], headers: &[HeaderSpan]) -> bool
    requires { All (IsHeaderWithin (length text.now)) headers.now }
    ensures { result ≡ list_any (λ h. says_close (header_bytes text.now h)) headers.now }
{
    headers.iter().any(|header| says_close(header.name.of(text), header.value.of(text)))
}

// The request of a route, which asks to close or not.
#[tactic(auto, unfolding(crate::specs::Head::answered))]
fn answered(alloc: Global, close: bool, route: Route, query: &[u8]) -> Result<Request, HeadFault>
    ensures means { IfSome (told result) (λ r. r ≡ answered close (Some route) query.now) }
    ensures rules { IfOk result (λ r. IsAsk r.ask) }
    ensures sized { IfOk result (λ r. IsSized r.ask) }
    ensures side { IfOk result (λ r. AsksBy route r.ask) }
{
    let ask = ask(alloc, route, query)?;
    Ok(Request { ask, close })
}

// The request of a target, which asks to close or not.
#[tactic(auto, unfolding(crate::specs::Head::answered))]
fn targeted(alloc: Global, side: Side, close: bool, target: &[u8]) -> Result<Request, HeadFault>
    ensures means { IfSome (told result) (λ r. r ≡ answered close (route_of side (parts_of target.now).0) (parts_of target.now).1) }
    ensures ask { IfOk result (λ r. IsAskOf side r.ask) }
{
    let (path, query) = parts_of(target);
    let Some(route) = route_of(side, path) else {
        return Err(HeadFault::NoSuchPath);
    };
    answered(alloc, close, route, query)
}

// The request of a head, by the places of its parts and of its header lines.
#[tactic(auto, using(crate::proofs::Heads::any_of_map), unfolding(crate::specs::Head::requested))]
fn requested(
    alloc: Global,
    side: Side,
    text: &[u8],
    head: &RequestSpans,
    headers: &[HeaderSpan],
) -> Result<Request, HeadFault>
    requires method { IsWithin (length text.now) head.now.method }
    requires path { IsWithin (length text.now) head.now.path }
    requires headers { All (IsHeaderWithin (length text.now)) headers.now }
    ensures means { IfSome (told result) (λ r. r ≡ requested side (span_bytes text.now head.now.method)
        (span_bytes text.now head.now.path) head.now.version (map (header_bytes text.now) headers.now)) }
    ensures ask { IfOk result (λ r. IsAskOf side r.ask) }
{
    if carries_body(text, headers) {
        return Err(HeadFault::BadHead);
    }
    if head.method.of(text) != b"GET".as_slice() {
        return Err(HeadFault::BadMethod);
    }
    let close = head.version == 0 || asks_to_close(text, headers);
    targeted(alloc, side, close, head.path.of(text))
}

// The places of the parts of a text, where the whole of it is one head.
fn split_head(text: &[u8], headers: &mut [HeaderSpan]) -> Option<RequestSpans>
    requires { length headers.old ≡ 64 }
    ensures within { IfSome result (IsRequestWithin text.now headers.new) }
    ensures whole { IfSome result (λ spans. spans.len ≡ length text.now) }
    ensures head { IfSome result (λ spans. (h : RequestHead) × IsHead text.now h × IsRequestAt text.now headers.new spans h) }
    ensures none { IfNone result ((h : RequestHead) → IsHead text.now h → ⊥) }
{
    match parse_request(text, headers) {
        Ok(Status::Complete(spans)) if spans.len == text.len() => Some(spans),
        _ => None,
    }
}

/// The request of a text, as the side reads it. `BadHead` comes where it isn't as a whole one head.
pub(crate) fn read_head(alloc: Global, side: Side, text: &[u8]) -> Result<Request, HeadFault>
    ensures means { IfSome (told result) (Means side text.now) }
    ensures ask { IfOk result (λ r. IsAskOf side r.ask) }
{
    let mut headers = [EMPTY_HEADER_SPAN; MAX_HEADERS];
    let Some(head) = split_head(text, &mut headers) else {
        return Err(HeadFault::BadHead);
    };
    requested(alloc, side, text, &head, &headers[..head.headers])
}
