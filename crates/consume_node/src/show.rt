ghost use Rattle.std.specs.Prelude.{◌≡◌, ℕ, ◌≤◌, take, IfOk, OnOk, OnErr, IfErr, IsErrOf};
ghost use Rattle.std.specs.Io.KnownBytes.{Appends};
ghost use Rattle.bus_types.specs.Causes.{Rose, HasCause};
ghost use Rattle.bus_stores.specs.Keeper.{SameStore};
ghost use Rattle.consume_node.specs.Runs.{Shows};

use crate::stop::Stop;
use bus_io::{Sink, write_all};
use bus_stores::{Keeper, StoreFault, all_rows};
use checkpoint::Mark;
use consumer_lines::{mode_shown, rows_shown};
use std::alloc::Global;

/// Writes a text. The only fault is `WriteFault`, after which a front of it is written.
pub(crate) fn write<W: Sink>(out: &mut W, text: &[u8]) -> Result<(), Stop>
    ensures wrote { OnOk result (Appends (W.written out.old) (W.written out.new) text.now) }
    ensures part { OnErr result ((count : ℕ) × Appends (W.written out.old) (W.written out.new) (take count text.now)) }
    ensures only { IfErr result (λ stop. stop ≡ Stop.WriteFault) }
    ensures cause { HasCause (W.faults out.old) (W.faults out.new) result }
{
    let Ok(()) = write_all(out, text) else {
        return Err(Stop::WriteFault);
    };
    Ok(())
}

// All rows of a keeper as they are shown.
fn rows_text<K: Keeper>(
    alloc: Global,
    name: &[u8],
    scn: u64,
    keeper: &mut K,
) -> Result<Vec<u8>, StoreFault>
    ensures shows { IfOk result (λ text. Shows name.now (Mark.Online scn) (K.state keeper.new) text.items) }
    ensures same { SameStore (K.state keeper.old) (K.state keeper.new) }
    ensures later { (K.state keeper.old).faults ≤ (K.state keeper.new).faults }
    ensures rose { IsErrOf result StoreFault.Failed → Rose (K.state keeper.old).faults (K.state keeper.new).faults }
{
    let rows = all_rows(alloc, keeper)?;
    let text = rows_shown(alloc, name, scn, rows.items())?;
    Ok(text)
}

/// What is shown of a consumer at a mark: of one that is online the rows of its keeper, else its mode alone.
pub(crate) fn shown<K: Keeper>(
    alloc: Global,
    name: &[u8],
    mark: &Mark,
    keeper: &mut K,
) -> Result<Vec<u8>, StoreFault>
    ensures shows { IfOk result (λ text. Shows name.now mark.now (K.state keeper.new) text.items) }
    ensures same { SameStore (K.state keeper.old) (K.state keeper.new) }
    ensures later { (K.state keeper.old).faults ≤ (K.state keeper.new).faults }
    ensures rose { IsErrOf result StoreFault.Failed → Rose (K.state keeper.old).faults (K.state keeper.new).faults }
{
    match *mark {
        Mark::Online { scn } => rows_text(alloc, name, scn, keeper),
        Mark::Delta { .. } => Ok(mode_shown(alloc, name, b" delta\n")?),
        Mark::Snapshot { .. } => Ok(mode_shown(alloc, name, b" snapshot\n")?),
        Mark::Scanned { .. } => Ok(mode_shown(alloc, name, b" scanned\n")?),
        Mark::Catchup { .. } => Ok(mode_shown(alloc, name, b" catchup\n")?),
    }
}
