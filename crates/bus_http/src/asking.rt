ghost use Rattle.std.specs.Prelude.{◌≡◌, ◌≤◌, ◌++◌, ℕ, List, Ok, Some, false, [], codes, decimal, IfOk, IfErr, OnOk, string_bytes};
ghost use Rattle.std.specs.Io.KnownBytes.{Appends};
ghost use Rattle.bus_types.specs.Causes.{Rose};
ghost use Rattle.form_urlencoded.specs.Form.{append_pair, extend_pairs};
ghost use Rattle.partition_filter.specs.Spelling.{filter_text};
ghost use Rattle.bus_types.specs.Text.{cursor_text as cursor_bytes};
ghost use Rattle.bus_wire.specs.declared.ask.Ask.TheVariants as asks;
ghost use Rattle.bus_http.specs.Asking.{flag_text, path_of, pairs_of, ask_text, IsInRange, IsSized};
ghost use Rattle.bus_types.specs.Text.{IsCursor};
ghost use Rattle.bus_wire.specs.Asks.{IsAsk};
ghost use Rattle.bus_http.specs.declared.route.Side.{Side as SideValue};
ghost use Rattle.bus_http.specs.Route.{AsksOf};
ghost use Rattle.bus_http.specs.Requests.{First};
ghost use Rattle.bus_http.specs.Asked.{AsksPart, IsWriteFault};

use bus_io::{Sink, WriteFault, write_all};
use bus_types::{Cursor, Key, NoMemory, cursor_text};
use bus_wire::Ask;
use form_urlencoded::Serializer;
use itoa::Buffer;
use partition_filter::Filter;
use std::alloc::Global;

// Adds a number to a form.
fn put_number(form: &mut Serializer, name: &str, number: u64) -> Result<(), NoMemory>
    ensures { OnOk result (form.new ≡ record form.old { form = append_pair form.old.form name.now (decimal number) }) }
{
    let mut digits = Buffer::new();
    form.append_pair(name, digits.format(number))?;
    Ok(())
}

// Adds a cursor to a form.
fn put_cursor(alloc: Global, form: &mut Serializer, cursor: Cursor) -> Result<(), NoMemory>
    ensures { OnOk result (form.new ≡ record form.old { form = append_pair form.old.form (codes "cursor") (cursor_bytes cursor) }) }
{
    let text = cursor_text(alloc, cursor)?;
    form.append_pair("cursor", text.as_str())?;
    Ok(())
}

// Adds which rows are meant to a form.
fn put_filter(alloc: Global, form: &mut Serializer, filter: &Filter) -> Result<(), NoMemory>
    ensures { OnOk result (form.new ≡ record form.old { form = append_pair form.old.form (codes "filter") (filter_text filter.now) }) }
{
    let text = filter.write(alloc)?;
    form.append_pair("filter", text.as_str())?;
    Ok(())
}

fn flag_text(flag: bool) -> &'static str
    ensures { result.now ≡ flag_text flag }
{
    if flag { "1" } else { "0" }
}

// The form of an ask for a stream.
fn stream_form(alloc: Global, scn: u64, filter: &Filter, max: u32) -> Result<String, NoMemory>
    ensures { IfOk result (λ form. string_bytes form ≡ extend_pairs [] (pairs_of (asks.Stream scn filter.now max))) }
{
    let mut form = Serializer::new(String::new(alloc));
    put_number(&mut form, "scn", scn)?;
    put_filter(alloc, &mut form, filter)?;
    put_number(&mut form, "max", u64::from(max))?;
    Ok(form.finish())
}

fn start_form(alloc: Global, since: u64, fresh: bool) -> Result<String, NoMemory>
    ensures { IfOk result (λ form. string_bytes form ≡ extend_pairs [] (pairs_of (asks.Start since fresh))) }
{
    let mut form = Serializer::new(String::new(alloc));
    put_number(&mut form, "since", since)?;
    form.append_pair("fresh", flag_text(fresh))?;
    Ok(form.finish())
}

fn scan_form(
    alloc: Global,
    start: u64,
    cursor: Cursor,
    filter: &Filter,
    max: u32,
) -> Result<String, NoMemory>
    ensures { IfOk result (λ form. string_bytes form ≡ extend_pairs [] (pairs_of (asks.Scan start cursor filter.now max))) }
{
    let mut form = Serializer::new(String::new(alloc));
    put_number(&mut form, "start", start)?;
    put_cursor(alloc, &mut form, cursor)?;
    put_filter(alloc, &mut form, filter)?;
    put_number(&mut form, "max", u64::from(max))?;
    Ok(form.finish())
}

fn target_form(alloc: Global, start: u64, atleast: u64) -> Result<String, NoMemory>
    ensures { IfOk result (λ form. string_bytes form ≡ extend_pairs [] (pairs_of (asks.Target start atleast))) }
{
    let mut form = Serializer::new(String::new(alloc));
    put_number(&mut form, "start", start)?;
    put_number(&mut form, "atleast", atleast)?;
    Ok(form.finish())
}

fn catchup_form(
    alloc: Global,
    at: u64,
    target: u64,
    filter: &Filter,
    max: u32,
) -> Result<String, NoMemory>
    ensures { IfOk result (λ form. string_bytes form ≡ extend_pairs [] (pairs_of (asks.Catchup at target filter.now max))) }
{
    let mut form = Serializer::new(String::new(alloc));
    put_number(&mut form, "at", at)?;
    put_number(&mut form, "target", target)?;
    put_filter(alloc, &mut form, filter)?;
    put_number(&mut form, "max", u64::from(max))?;
    Ok(form.finish())
}

fn delta_form(
    alloc: Global,
    since: u64,
    target: u64,
    cursor: Cursor,
    filter: &Filter,
    max: u32,
) -> Result<String, NoMemory>
    ensures { IfOk result (λ form. string_bytes form ≡ extend_pairs [] (pairs_of (asks.Delta since target cursor filter.now max))) }
{
    let mut form = Serializer::new(String::new(alloc));
    put_number(&mut form, "since", since)?;
    put_number(&mut form, "target", target)?;
    put_cursor(alloc, &mut form, cursor)?;
    put_filter(alloc, &mut form, filter)?;
    put_number(&mut form, "max", u64::from(max))?;
    Ok(form.finish())
}

// The parameters of an ask, as a form.
fn form_of(alloc: Global, ask: &Ask) -> Result<String, NoMemory>
    ensures { IfOk result (λ form. string_bytes form ≡ extend_pairs [] (pairs_of ask.now)) }
{
    match ask {
        Ask::Stream { scn, filter, max } => stream_form(alloc, *scn, filter, *max),
        Ask::Start { since, fresh } => start_form(alloc, *since, *fresh),
        Ask::Scan {
            start,
            cursor,
            filter,
            max,
        } => scan_form(alloc, *start, *cursor, filter, *max),
        Ask::Target { start, atleast } => target_form(alloc, *start, *atleast),
        Ask::Catchup {
            at,
            target,
            filter,
            max,
        } => catchup_form(alloc, *at, *target, filter, *max),
        Ask::Delta {
            since,
            target,
            cursor,
            filter,
            max,
        } => delta_form(alloc, *since, *target, *cursor, filter, *max),
    }
}

fn path_of(ask: &Ask) -> &'static str
    ensures { result.now ≡ path_of ask.now }
{
    match ask {
        Ask::Stream { .. } => "/stream",
        Ask::Start { .. } => "/start",
        Ask::Scan { .. } => "/scan",
        Ask::Target { .. } => "/target",
        Ask::Catchup { .. } => "/catchup",
        Ask::Delta { .. } => "/delta",
    }
}

// The request of an ask.
fn ask_text(alloc: Global, ask: &Ask) -> Result<String, NoMemory>
    ensures { IfOk result (λ text. string_bytes text ≡ ask_text ask.now) }
{
    let path = path_of(ask);
    let form = form_of(alloc, ask)?;
    let text = format!(in alloc; "GET {path}?{form} HTTP/1.1\r\nHost: localhost\r\n\r\n")?;
    Ok(text)
}

/// Why an ask was not written.
#[derive(Clone, Copy, Debug, PartialEq, Eq)]
pub enum AskFault {
    /// The sink failed: its count rose.
    WriteFault {
        /// How many bytes of the request went out: the first ones, and no others.
        written: u64,
    },
    /// Memory ran out. Nothing was written.
    NoMemory,
}

// The numbers of a cursor are in the ranges of their types.
fn placed(cursor: &Cursor)
    ensures { IsCursor cursor.now }
{
    match cursor {
        Cursor::Start => {}
        Cursor::After { source, key } => {
            let Key::Long(key) = key;
            let _source = *source;
            let _key = *key;
        }
    }
}

// So are those of an ask, and its filter is one.
fn in_range(ask: &Ask)
    requires { IsSized ask.now }
    ensures { IsInRange ask.now }
{
    match ask {
        Ask::Stream { filter, .. } => {
            let _filter = filter.is_all();
        }
        Ask::Start { .. } => {}
        Ask::Scan { cursor, filter, .. } => {
            placed(cursor);
            let _filter = filter.is_all();
        }
        Ask::Target { .. } => {}
        Ask::Catchup { filter, .. } => {
            let _filter = filter.is_all();
        }
        Ask::Delta { cursor, filter, .. } => {
            placed(cursor);
            let _filter = filter.is_all();
        }
    }
}

/// Writes the request of an ask, at once. A write fault comes only where the sink's count rose, and tells how many bytes of the
/// request went out before it; after want of memory none did.
pub fn write_ask<W: Sink>(alloc: Global, out: &mut W, ask: &Ask) -> Result<(), AskFault>
    requires rules { IsAsk ask.now }
    requires sized { IsSized ask.now }
    ensures ok { OnOk result (Appends (W.written out.old) (W.written out.new) (ask_text ask.now)) }
    ensures part { IfErr result (λ fault. AsksPart fault (W.written out.old) (W.written out.new) (ask_text ask.now)) }

    // Whatever follows that request, it is read as this ask, which leaves exactly what follows.
    ensures read_back { (side : SideValue) → AsksOf side ask.now → (rest : List ℕ) → First side (ask_text ask.now ++ rest)
        (Ok (Some record { ask = ask.now; close = false })) rest }
    ensures later { W.faults out.old ≤ W.faults out.new }
    ensures failed { IfErr result (λ fault. IsWriteFault fault → Rose (W.faults out.old) (W.faults out.new)) }
    ensures beside { W.beside out.new ≡ W.beside out.old }
{
    in_range(ask);
    let Ok(text) = ask_text(alloc, ask) else {
        return Err(AskFault::NoMemory);
    };
    match write_all(out, text.as_bytes()) {
        Ok(()) => Ok(()),
        Err(WriteFault { written }) => Err(AskFault::WriteFault { written }),
    }
}
