ghost use Rattle.std.specs.Prelude.{◌≡◌, ◌≤◌, ◌<◌, ◌-◌, ◌*◌, false, IfOk, IfSome, OnErr, IsErrOf};
ghost use Rattle.bus_types.specs.Causes.{Rose};
ghost use Rattle.bus_stores.specs.Log.{SameLog, at_rest};
ghost use Rattle.partition_filter.specs.Selection.{test_of};
ghost use Rattle.delta_consolidate.specs.Delta.{Appends, AppendsSome, delta_chunk};
ghost use Rattle.delta_consolidate.specs.Filling.{Extends};
ghost use Rattle.delta_consolidate.specs.Gathering.{OnlyReads};

use crate::filling::{Filling, close, put_latest};
use crate::gathering::gather;
use bus_stores::{BootFault, LogFault, WindowLog};
use bus_types::Cursor;
use event_codec::Shape;
use partition_filter::Filter;
use std::alloc::Global;

/// Appends the next chunk of the last changes of the rows that a log's windows with `since` < SCN <= `target` change: the
/// longest run of them, in order of source and key, of rows behind the cursor that the filter accepts, that fits, with the
/// closing frame of 10 bytes, in at most `max` bytes. Each is a put or a delete with the SCN `target`. The shape tells how
/// many they are, and whether one is left; it is `Only(TooSmall(need))` exactly where the smallest reply needs more than `max`
/// bytes.
///
/// It reads each of these windows once, and one more where `target` is no window's SCN. It holds one window and at most one
/// change of each row that can still stand in the chunk, which are the first `(max - 10) / 23 + 1` behind the cursor, since a
/// change takes 23 bytes and more: later rows are passed over, or dropped as earlier ones come. Payloads are moved out of the
/// windows, and copied into the reply alone. The time of a change goes with the logarithm of the number of these rows.
///
/// `LogFailed` comes only where the log's count of faults rose, and `StoreFailed` and `Halted` never. After a fault the reply is
/// as before, and the log's windows always are.
pub fn delta<G: WindowLog>(
    alloc: Global,
    log: &mut G,
    since: u64,
    target: u64,
    cursor: &Cursor,
    filter: &Filter,
    max: u32,
    reply: &mut Vec<u8>,
) -> Result<Shape, BootFault>
    requires low { (G.state log.old).floor ≤ since }
    requires order { since < target }
    requires high { target ≤ (G.state log.old).high }
    ensures delta { IfOk result (λ shape. IfSome (G.state log.old).windows
        (λ ws. Appends (delta_chunk (test_of filter.now) since target cursor.now max ws) shape reply.old.items reply.new.items)) }

    // Whatever the log tells, it is the chunk of some windows between the two SCNs.
    ensures some { IfOk result (λ shape. AppendsSome (test_of filter.now) since target cursor.now max shape reply.old.items reply.new.items) }
    ensures err { OnErr result (reply.new.items ≡ reply.old.items) }
    ensures same { SameLog (G.state log.old) (G.state log.new) }
    ensures crash { IfSome (G.state log.old).windows (λ ws. G.passes ws (at_rest (G.state log.old)) log.old log.new) }
    ensures faults { (G.state log.old).faults ≤ (G.state log.new).faults }
    ensures failed { IsErrOf result BootFault.LogFailed → Rose (G.state log.old).faults (G.state log.new).faults }
    ensures sound { IsErrOf result BootFault.LogFailed → IfSome (G.state log.old).room (λ room. room.sound ≡ false) }
    ensures never_store { IsErrOf result BootFault.StoreFailed → ⊥ }
    ensures never_halted { IsErrOf result BootFault.Halted → ⊥ }
{
    let before = reply.len();
    match append_delta(alloc, log, since, target, cursor, filter, max, reply) {
        Ok(shape) => Ok(shape),
        Err(LogFault::Failed) => {
            reply.truncate(before);
            Err(BootFault::LogFailed)
        }
        Err(LogFault::Full) => {
            reply.truncate(before);
            Err(BootFault::LogFailed)
        }
        Err(LogFault::NoMemory) => {
            reply.truncate(before);
            Err(BootFault::NoMemory)
        }
    }
}

// Appends the chunk, or, at a fault, a part of it.
fn append_delta<G: WindowLog>(
    alloc: Global,
    log: &mut G,
    since: u64,
    target: u64,
    cursor: &Cursor,
    filter: &Filter,
    max: u32,
    reply: &mut Vec<u8>,
) -> Result<Shape, LogFault>
    requires low { (G.state log.old).floor ≤ since }
    requires high { target ≤ (G.state log.old).high }
    ensures delta { IfOk result (λ shape. IfSome (G.state log.old).windows
        (λ ws. Appends (delta_chunk (test_of filter.now) since target cursor.now max ws) shape reply.old.items reply.new.items)) }
    ensures some { IfOk result (λ shape. AppendsSome (test_of filter.now) since target cursor.now max shape reply.old.items reply.new.items) }
    ensures reads { OnlyReads (G.state log.old) (G.state log.new) result }
    ensures crash { IfSome (G.state log.old).windows (λ ws. G.passes ws (at_rest (G.state log.old)) log.old log.new) }
    ensures front { Extends reply.old.items reply.new.items }
{
    let _within = log.high();
    let latest = gather(alloc, log, since, target, cursor, filter, rows_within(max))?;
    let mut filling = Filling::new(max);
    put_latest(target, latest, &mut filling, reply)?;
    let shape = close(target, max, &filling, reply)?;
    Ok(shape)
}

// How many rows can stand in so many bytes with the closing frame, and one that is left.
fn rows_within(max: u32) -> usize
    ensures { max - 10 < 23 * result }
{
    (max.saturating_sub(10) / 23) as usize + 1
}
