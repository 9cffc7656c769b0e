ghost use Rattle.std.specs.Prelude.{IfSome};
ghost use Rattle.client_switch.specs.Client.{IsAskOf, asks};

use crate::keepers::Store;
use crate::told::Told;
use crate::words::{cut, said, small, text};
use bus_wire::Ask;
use client_switch::{Client, ClientOpen, TakeFault, Took};
use partition_filter::Filter;
use std::alloc::Global;
use std::test::Fail;

/// Opens a client over a keeper, by the text of its filter.
pub fn open_client(
    alloc: Global,
    keeper: &mut Store,
    filter: &str,
) -> Result<Result<Client, ClientOpen>, Fail> {
    let filter = Filter::read(alloc, filter)?;
    Ok(Client::open(alloc, keeper, filter))
}

/// What an opened client is, or why there is none.
pub fn opened_text(alloc: Global, opened: &Result<Client, ClientOpen>) -> Result<String, Fail> {
    match opened {
        Err(fault) => said(alloc, fault),
        Ok(client) => client_text(alloc, client),
    }
}

// The mark, the filter, and whether it is halted.
fn client_text(alloc: Global, client: &Client) -> Result<String, Fail> {
    let filter = client.filter().write(alloc)?;
    let mark = client.mark();
    Ok(format!(in alloc; "{mark:?}, filter {filter}, halted {}", client.is_halted())?)
}

/// What a call answers, with a reply and the keeper of the client.
pub fn client_answer(
    alloc: Global,
    client: &mut Client,
    keeper: &mut Store,
    reply: &[u8],
    row: &str,
) -> Result<String, Fail> {
    let (word, rest) = cut(row);
    match word {
        "ask" => ask(alloc, client, small(rest)),
        "take" => take(alloc, client, keeper, reply, small(rest)),
        "is" => client_text(alloc, client),
        _ => text(alloc, "no call"),
    }
}

// What a client asks next, if it asks.
fn ask_of(alloc: Global, client: &Client, most: u32) -> Option<Ask>
    ensures { IfSome result (λ ask. IsAskOf client.now.filter (asks client.now most) ask) }
{
    client.ask(alloc, most).ok()
}

fn ask(alloc: Global, client: &Client, most: u32) -> Result<String, Fail> {
    match ask_of(alloc, client, most) {
        None => text(alloc, "nothing"),
        Some(ask) => ask_text(alloc, &ask),
    }
}

fn ask_text(alloc: Global, ask: &Ask) -> Result<String, Fail> {
    let told = match ask {
        Ask::Stream { scn, max, .. } => format!(in alloc; "stream {scn} {max}"),
        Ask::Start { since, fresh } => format!(in alloc; "start {since} {fresh}"),
        Ask::Scan {
            start,
            cursor,
            max,
            ..
        } => format!(in alloc; "scan {start} {cursor:?} {max}"),
        Ask::Target { start, atleast } => format!(in alloc; "target {start} {atleast}"),
        Ask::Catchup {
            at,
            target,
            max,
            ..
        } => format!(in alloc; "catchup {at} {target} {max}"),
        Ask::Delta {
            since,
            target,
            cursor,
            max,
            ..
        } => format!(in alloc; "delta {since} {target} {cursor:?} {max}"),
    };
    Ok(told?)
}

// Asks for 1,000 bytes, and takes the reply, with a consumer that refuses after so many callbacks.
fn take(
    alloc: Global,
    client: &mut Client,
    keeper: &mut Store,
    reply: &[u8],
    most: u32,
) -> Result<String, Fail> {
    let Some(ask) = ask_of(alloc, client, 1000) else {
        return text(alloc, "nothing is asked");
    };
    let mut told = Told::new(alloc, most);
    let answer = client.take(alloc, &ask, reply, keeper, &mut told);
    took_text(alloc, &answer, &told)
}

// What was taken, and what the consumer was told.
fn took_text(alloc: Global, answer: &Result<Took, TakeFault>, told: &Told) -> Result<String, Fail> {
    Ok(format!(in alloc; "{answer:?}{}", told.text)?)
}
