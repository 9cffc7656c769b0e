ghost use Rattle.std.specs.Prelude.{◌≡◌, ◌+◌, ◌<◌, ◌≤◌, length, option_map, IfOk, IfErr, IsErrOf, OnOk};
ghost use Rattle.std.specs.Io.KnownBytes.{IsAtEnd};
ghost use Rattle.bus_types.specs.Causes.{Rose, HasCause};
ghost use Rattle.range_ring.specs.Words.{room_of};
ghost use Rattle.range_ring.specs.Belonging.{new_feeder, fresh_pass};
ghost use Rattle.relay_node.specs.Feeding.{windows_of};
ghost use Rattle.relay_node.specs.Node.{IsFed, EndsAt};
ghost use Rattle.relay_node.specs.Pieces.{runs};
ghost use Rattle.relay_node.specs.Reading.{ReadsAll, ReadsOn, EndsSo, HaltsAt, Settles};

use crate::feed::{Feed, Stop};
use crate::relaying::Relaying;
use bus_io::Source;
use bus_types::{Failed, Timeline};
use range_ring::{Feeder, Pass, Ring};
use std::alloc::Global;
use std::sync::Wait;

/// How many bytes of the input are asked for at a time.
const PIECE: usize = 65_536;

/// The most bytes of an input.
const LONGEST_INPUT: u64 = 16_777_216;

/// The relay of the whole input, whose windows it publishes on a new ring. Where a line is at fault, the input is read on before it
/// is told: up to its end, or until more has come than an input may have. Where windows are told, they are those of the input.
pub(crate) fn publish_input<'r, R: Wait, T: Timeline, S: Source>(
    rt: &'r R,
    alloc: Global,
    ring: &'r Ring<T>,
    feeder: Feeder<T>,
    pass: Pass<T>,
    input: &mut S,
) -> Result<Relaying<'r, R, T>, Stop>
    requires feeder { feeder ≡ new_feeder ring.now }
    requires pass { pass ≡ fresh_pass ring.now }
    requires told { T.told ≡ windows_of (S.left input.old) }
    ensures fed { IfOk result (λ relay. IsFed (room_of ring.now.limits) (S.left input.old) relay) }
    ensures end { OnOk result (IsAtEnd (S.left input.new)) }
    ensures halts { IfErr result (λ stop. HaltsAt stop (λ ending. EndsAt ending (S.left input.old) (S.left input.new))) }
    ensures fault { IsErrOf result Stop.ReadFault → Rose (S.faults input.old) (S.faults input.new) }
{
    let mut feed = Feed::new(rt, alloc, ring, feeder);
    read_lines(alloc, &mut feed, input)?;
    feed.finish(alloc)?;
    Ok(feed.publisher.relay(pass))
}

// Room for a piece of the input.
fn piece_room() -> [u8; PIECE]
    ensures { length result ≡ PIECE }
{
    [0; PIECE]
}

// Publishes the windows of all lines that end with a LF.
fn read_lines<R: Wait, T: Timeline, S: Source>(
    alloc: Global,
    feed: &mut Feed<'_, R, T>,
    input: &mut S,
) -> Result<(), Stop>
    requires empty { feed.old.lines.used + length feed.old.lines.come ≡ 0 }
    requires told { T.told ≡ option_map (λ bytes. (runs (record { sent = feed.old.publisher; lines = feed.old.lines }) bytes).sent.windows) (S.left input.old) }
    ensures reads { OnOk result (ReadsAll (S.left input.old) (S.left input.new)
        (record { sent = feed.old.publisher; lines = feed.old.lines })
        (record { sent = feed.new.publisher; lines = feed.new.lines })) }
    ensures halts { IfErr result (λ stop. HaltsAt stop (EndsSo (S.left input.old) (S.left input.new)
        (record { sent = feed.old.publisher; lines = feed.old.lines }))) }
    ensures fault { IsErrOf result Stop.ReadFault → Rose (S.faults input.old) (S.faults input.new) }
{
    let mut piece = piece_room();
    let mut read = 0;
    loop {
        let Ok(count) = input.read(&mut piece) else {
            return Err(Stop::ReadFault);
        };
        if count == 0 {
            return Ok(());
        }
        read += count as u64;
        if let Err(stop) = feed.take(alloc, &piece[..count]) {
            return Err(settle(stop, &mut piece, read, input));
        }
    }
}

// Reads on behind a line at fault. The stop is then the line's still, or a fault of the input.
fn settle<S: Source>(stop: Stop, piece: &mut [u8], read: u64, input: &mut S) -> Stop
    requires fault { stop ≡ Stop.ReadFault → ⊥ }
    requires room { 0 < length piece.old }
    ensures settled { Settles stop result (ReadsOn (S.left input.old) (S.left input.new) read) }
    ensures later { S.faults input.old ≤ S.faults input.new }
    ensures cause { result ≡ Stop.ReadFault → Rose (S.faults input.old) (S.faults input.new) }
{
    if stop == Stop::NoMemory {
        return stop;
    }
    match read_on(piece, read, input) {
        Ok(()) => stop,
        Err(Failed) => Stop::ReadFault,
    }
}

// Reads on to the end of the input, or until more has come than an input may have.
fn read_on<S: Source>(piece: &mut [u8], read: u64, input: &mut S) -> Result<(), Failed>
    requires { 0 < length piece.old }
    ensures reads { OnOk result (ReadsOn (S.left input.old) (S.left input.new) read) }
    ensures cause { HasCause (S.faults input.old) (S.faults input.new) result }
{
    let mut come = read;
    while come <= LONGEST_INPUT {
        let count = input.read(piece)?;
        if count == 0 {
            return Ok(());
        }
        come = come.saturating_add(count as u64);
    }
    Ok(())
}
