ghost use Rattle.std.specs.Prelude.{◌≡◌, ◌≤◌, false, IfOk, IfSome, OnErr, IsErrOf};
ghost use Rattle.bus_types.specs.declared.limits.TheConstants.{MAX_SCN};
ghost use Rattle.bus_types.specs.Causes.{Rose};
ghost use Rattle.bus_stores.specs.Keeper.{BothTold, SameStore};
ghost use Rattle.partition_filter.specs.Selection.{test_of};
ghost use Rattle.snapshot_scan.specs.Chunk.{Appends, AppendsSome, scan_chunk};
ghost use Rattle.snapshot_scan.specs.Filling.{Extends, filled, empty_in};
ghost use Rattle.snapshot_scan.specs.Paging.{OnlyReads, ScannedFrom};

use crate::filling::{Filling, close};
use crate::pages::fill;
use bus_stores::{BootFault, Keeper, StoreFault};
use bus_types::Cursor;
use event_codec::Shape;
use partition_filter::Filter;
use std::alloc::Global;

/// Appends the next chunk of a keeper's rows, which are the source's table at the SCN `applied`: the longest run of rows
/// after the cursor that the filter accepts and that fit, with the closing frame of 10 bytes, in at most `max` bytes. Each
/// is a put with the SCN `applied`. The shape tells how many they are, and whether a row is left; it is
/// `Only(TooSmall(need))` exactly where the smallest reply needs more than `max` bytes. At 0 nothing is applied, and the
/// keeper isn't called.
///
/// The keeper is read in pages, and at most a page beyond the chunk: the time goes with the chunk and with the rows that
/// the filter passes over. `StoreFailed` comes only where the keeper's count of faults rose, and `LogFailed` and `Halted`
/// never. After a fault the reply is as before, and the keeper's rows and mark always are.
pub fn chunk<K: Keeper>(
    alloc: Global,
    keeper: &mut K,
    applied: u64,
    cursor: &Cursor,
    filter: &Filter,
    max: u32,
    reply: &mut Vec<u8>,
) -> Result<Shape, BootFault>
    requires { applied ≤ MAX_SCN }
    ensures chunk { IfOk result (λ shape. IfSome (K.state keeper.new).content
        (λ c. Appends (scan_chunk (test_of filter.now) applied cursor.now max c.rows) shape reply.old.items reply.new.items)) }

    // Whatever the keeper tells, it is the chunk of some rows after the cursor.
    ensures some { IfOk result (λ shape. AppendsSome (test_of filter.now) applied cursor.now max shape reply.old.items reply.new.items) }
    ensures err { OnErr result (reply.new.items ≡ reply.old.items) }
    ensures same { SameStore (K.state keeper.old) (K.state keeper.new) }
    ensures calls { BothTold (λ a b. a ≤ b) (K.state keeper.old).calls (K.state keeper.new).calls }
    ensures faults { (K.state keeper.old).faults ≤ (K.state keeper.new).faults }
    ensures store { IsErrOf result BootFault.StoreFailed → Rose (K.state keeper.old).faults (K.state keeper.new).faults }
    ensures sound { IsErrOf result BootFault.StoreFailed → IfSome (K.state keeper.old).stops (λ s. s.sound ≡ false) }
    ensures never_log { IsErrOf result BootFault.LogFailed → ⊥ }
    ensures never_halted { IsErrOf result BootFault.Halted → ⊥ }
    ensures unread { applied ≡ 0 → keeper.new ≡ keeper.old }
{
    let before = reply.len();
    match append_chunk(alloc, keeper, applied, cursor, filter, max, reply) {
        Ok(shape) => Ok(shape),
        Err(StoreFault::Failed) => {
            reply.truncate(before);
            Err(BootFault::StoreFailed)
        }
        Err(StoreFault::NoMemory) => {
            reply.truncate(before);
            Err(BootFault::NoMemory)
        }
    }
}

// Appends the chunk, or, at a fault, a part of it.
fn append_chunk<K: Keeper>(
    alloc: Global,
    keeper: &mut K,
    applied: u64,
    cursor: &Cursor,
    filter: &Filter,
    max: u32,
    reply: &mut Vec<u8>,
) -> Result<Shape, StoreFault>
    requires { applied ≤ MAX_SCN }
    ensures chunk { IfOk result (λ shape. IfSome (K.state keeper.new).content
        (λ c. Appends (scan_chunk (test_of filter.now) applied cursor.now max c.rows) shape reply.old.items reply.new.items)) }
    ensures some { IfOk result (λ shape. AppendsSome (test_of filter.now) applied cursor.now max shape reply.old.items reply.new.items) }
    ensures reads { OnlyReads (K.state keeper.old) (K.state keeper.new) result }
    ensures front { Extends reply.old.items reply.new.items }
    ensures unread { applied ≡ 0 → keeper.new ≡ keeper.old }
{
    let filling = fill_at(alloc, keeper, applied, cursor, filter, max, reply)?;
    let shape = close(applied, max, &filling, reply)?;
    Ok(shape)
}

// Fills a chunk with the rows of the table at an SCN, of which there are none at 0.
fn fill_at<K: Keeper>(
    alloc: Global,
    keeper: &mut K,
    applied: u64,
    cursor: &Cursor,
    filter: &Filter,
    max: u32,
    reply: &mut Vec<u8>,
) -> Result<Filling, StoreFault>
    ensures filled { IfOk result (λ filling. ScannedFrom (test_of filter.now) applied cursor.now (K.state keeper.new)
        (empty_in max reply.old.items) (filled reply.new.items filling)) }
    ensures reads { OnlyReads (K.state keeper.old) (K.state keeper.new) result }
    ensures front { Extends reply.old.items reply.new.items }
    ensures unread { applied ≡ 0 → keeper.new ≡ keeper.old }
{
    if applied == 0 {
        return Ok(Filling::new(max));
    }
    fill(alloc, keeper, applied, cursor, filter, max, reply)
}
