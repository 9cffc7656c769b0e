ghost use Rattle.std.specs.Prelude.{◌≡◌, ◌<◌, ◌≤◌, IfOk, IfSome};
ghost use Rattle.bus_wire.specs.declared.ask.Ask.{Ask as AskValue};
ghost use Rattle.bus_wire.specs.Asks.{IsAsk, AsksBootstrap};
ghost use Rattle.bus_http.specs.Asking.{IsSized};
ghost use Rattle.bus_http.specs.Query.{scn_in, scn_from, scn_above, max_in, filter_in, fresh_in, cursor_in};
ghost use Rattle.bus_http.specs.Route.{parts_of, boot_route, route_of, stream_in, start_in, scan_in, target_in, catchup_in, delta_in, ask_in, Finds, Asks, AsksRelay, AsksOf, AsksBy};

use crate::fault::QueryFault;
use crate::query;
use bus_types::{Cursor, MAX_SCN, cut_text};
use bus_wire::Ask;
use partition_filter::Filter;
use std::alloc::Global;

/// Whose paths a request is read by.
#[derive(Clone, Copy, Debug, PartialEq, Eq)]
pub enum Side {
    /// A relay, which has `/stream`.
    Relay,
    /// A bootstrap, which has `/start`, `/scan`, `/target`, `/catchup` and `/delta`.
    Boot,
}

/// What a path asks for.
#[derive(Clone, Copy, Debug, PartialEq, Eq)]
pub(crate) enum Route {
    Stream,
    Start,
    Scan,
    Target,
    Catchup,
    Delta,
}

/// The path and the query of a target.
pub(crate) fn parts_of(target: &[u8]) -> (&[u8], &[u8])
    ensures path { result.0.now ≡ (parts_of target.now).0 }
    ensures query { result.1.now ≡ (parts_of target.now).1 }
{
    match cut_text(b'?', target) {
        Some((path, query)) => (path, query),
        None => (target, b""),
    }
}

#[tactic(auto, unfolding(crate::specs::Route::boot_route))]
fn boot_route(path: &[u8]) -> Option<Route>
    ensures value { result ≡ boot_route path.now }
    ensures asks { IfSome result (λ route. (ask : AskValue) → AsksBy route ask → AsksBootstrap ask) }
{
    if path == b"/start".as_slice() {
        return Some(Route::Start);
    }
    if path == b"/scan".as_slice() {
        return Some(Route::Scan);
    }
    if path == b"/target".as_slice() {
        return Some(Route::Target);
    }
    if path == b"/catchup".as_slice() {
        return Some(Route::Catchup);
    }
    if path == b"/delta".as_slice() {
        return Some(Route::Delta);
    }
    None
}

/// What a path of a side asks for.
#[tactic(auto, unfolding(crate::specs::Route::route_of))]
pub(crate) fn route_of(side: Side, path: &[u8]) -> Option<Route>
    ensures value { result ≡ route_of side path.now }
    ensures asks { IfSome result (λ route. (ask : AskValue) → AsksBy route ask → AsksOf side ask) }
{
    match side {
        Side::Relay => {
            if path == b"/stream".as_slice() {
                Some(Route::Stream)
            } else {
                None
            }
        }
        Side::Boot => boot_route(path),
    }
}

// The parameters of a query, each by its number in the order of its path.
fn scn(alloc: Global, query: &[u8], name: u8, text: &[u8]) -> Result<u64, QueryFault>
    ensures finds { Finds name result (scn_in text.now query.now) }
    ensures small { IfOk result (λ scn. scn ≤ MAX_SCN) }
{
    let found = query::scn(alloc, query, text)?;
    found.ok_or(QueryFault::BadQuery { name })
}

fn scn_from(
    alloc: Global,
    query: &[u8],
    name: u8,
    text: &[u8],
    least: u64,
) -> Result<u64, QueryFault>
    ensures finds { Finds name result (scn_from least text.now query.now) }
    ensures within { IfOk result (λ scn. (least ≤ scn) × (scn ≤ MAX_SCN)) }
{
    let found = query::scn_from(alloc, query, text, least)?;
    found.ok_or(QueryFault::BadQuery { name })
}

fn scn_above(
    alloc: Global,
    query: &[u8],
    name: u8,
    text: &[u8],
    low: u64,
) -> Result<u64, QueryFault>
    ensures finds { Finds name result (scn_above low text.now query.now) }
    ensures within { IfOk result (λ scn. (low < scn) × (scn ≤ MAX_SCN)) }
{
    let found = query::scn_above(alloc, query, text, low)?;
    found.ok_or(QueryFault::BadQuery { name })
}

fn max(alloc: Global, query: &[u8], name: u8) -> Result<u32, QueryFault>
    ensures finds { Finds name result (max_in query.now) }
    ensures within { IfOk result (λ max. (1 ≤ max) × (max ≤ 16777216)) }
{
    let found = query::max(alloc, query)?;
    found.ok_or(QueryFault::BadQuery { name })
}

fn filter(alloc: Global, query: &[u8], name: u8) -> Result<Filter, QueryFault>
    ensures { Finds name result (filter_in query.now) }
{
    let found = query::filter(alloc, query)?;
    found.ok_or(QueryFault::BadQuery { name })
}

fn fresh(alloc: Global, query: &[u8], name: u8) -> Result<bool, QueryFault>
    ensures { Finds name result (fresh_in query.now) }
{
    let found = query::fresh(alloc, query)?;
    found.ok_or(QueryFault::BadQuery { name })
}

fn cursor(alloc: Global, query: &[u8], name: u8) -> Result<Cursor, QueryFault>
    ensures { Finds name result (cursor_in query.now) }
{
    let found = query::cursor(alloc, query)?;
    found.ok_or(QueryFault::BadQuery { name })
}

#[tactic(auto, unfolding(crate::specs::Route::stream_in))]
fn stream(alloc: Global, query: &[u8]) -> Result<Ask, QueryFault>
    ensures asks { Asks result (stream_in query.now) }
    ensures rules { IfOk result IsAsk }
    ensures sized { IfOk result IsSized }
    ensures side { IfOk result AsksRelay }
{
    let scn = scn(alloc, query, 0, b"scn")?;
    let filter = filter(alloc, query, 1)?;
    let max = max(alloc, query, 2)?;
    Ok(Ask::Stream { scn, filter, max })
}

#[tactic(auto, unfolding(crate::specs::Route::start_in))]
fn start(alloc: Global, query: &[u8]) -> Result<Ask, QueryFault>
    ensures asks { Asks result (start_in query.now) }
    ensures rules { IfOk result IsAsk }
    ensures sized { IfOk result IsSized }
    ensures side { IfOk result AsksBootstrap }
{
    let since = scn(alloc, query, 0, b"since")?;
    let fresh = fresh(alloc, query, 1)?;
    Ok(Ask::Start { since, fresh })
}

#[tactic(auto, unfolding(crate::specs::Route::scan_in))]
fn scan(alloc: Global, query: &[u8]) -> Result<Ask, QueryFault>
    ensures asks { Asks result (scan_in query.now) }
    ensures rules { IfOk result IsAsk }
    ensures sized { IfOk result IsSized }
    ensures side { IfOk result AsksBootstrap }
{
    let start = scn(alloc, query, 0, b"start")?;
    let cursor = cursor(alloc, query, 1)?;
    let filter = filter(alloc, query, 2)?;
    let max = max(alloc, query, 3)?;
    Ok(Ask::Scan {
        start,
        cursor,
        filter,
        max,
    })
}

#[tactic(auto, unfolding(crate::specs::Route::target_in))]
fn target(alloc: Global, query: &[u8]) -> Result<Ask, QueryFault>
    ensures asks { Asks result (target_in query.now) }
    ensures rules { IfOk result IsAsk }
    ensures sized { IfOk result IsSized }
    ensures side { IfOk result AsksBootstrap }
{
    let start = scn(alloc, query, 0, b"start")?;
    let atleast = scn_from(alloc, query, 1, b"atleast", start)?;
    Ok(Ask::Target { start, atleast })
}

#[tactic(auto, unfolding(crate::specs::Route::catchup_in))]
fn catchup(alloc: Global, query: &[u8]) -> Result<Ask, QueryFault>
    ensures asks { Asks result (catchup_in query.now) }
    ensures rules { IfOk result IsAsk }
    ensures sized { IfOk result IsSized }
    ensures side { IfOk result AsksBootstrap }
{
    let at = scn(alloc, query, 0, b"at")?;
    let target = scn_above(alloc, query, 1, b"target", at)?;
    let filter = filter(alloc, query, 2)?;
    let max = max(alloc, query, 3)?;
    Ok(Ask::Catchup {
        at,
        target,
        filter,
        max,
    })
}

#[tactic(auto, unfolding(crate::specs::Route::delta_in))]
fn delta(alloc: Global, query: &[u8]) -> Result<Ask, QueryFault>
    ensures asks { Asks result (delta_in query.now) }
    ensures rules { IfOk result IsAsk }
    ensures sized { IfOk result IsSized }
    ensures side { IfOk result AsksBootstrap }
{
    let since = scn(alloc, query, 0, b"since")?;
    let target = scn_above(alloc, query, 1, b"target", since)?;
    let cursor = cursor(alloc, query, 2)?;
    let filter = filter(alloc, query, 3)?;
    let max = max(alloc, query, 4)?;
    Ok(Ask::Delta {
        since,
        target,
        cursor,
        filter,
        max,
    })
}

/// The ask of a route and a query. `BadQuery` tells the first parameter that is at fault.
#[tactic(auto, unfolding(crate::specs::Route::ask_in))]
pub(crate) fn ask(alloc: Global, route: Route, query: &[u8]) -> Result<Ask, QueryFault>
    ensures asks { Asks result (ask_in route query.now) }
    ensures rules { IfOk result IsAsk }
    ensures sized { IfOk result IsSized }
    ensures side { IfOk result (AsksBy route) }
{
    match route {
        Route::Stream => stream(alloc, query),
        Route::Start => start(alloc, query),
        Route::Scan => scan(alloc, query),
        Route::Target => target(alloc, query),
        Route::Catchup => catchup(alloc, query),
        Route::Delta => delta(alloc, query),
    }
}
