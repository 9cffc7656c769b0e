ghost use Rattle.std.specs.Prelude.{◌≤◌, IfOk, IfSome};
ghost use Rattle.bus_stores.specs.Log.{at_rest};
ghost use Rattle.partition_filter.specs.Selection.{test_of};
ghost use Rattle.delta_consolidate.specs.Gathering.{OnlyReads, FindsNext, GatheredFrom};

use crate::latest::{Latest, take_changes};
use bus_stores::{LogFault, WindowLog};
use bus_types::{Cursor, Window};
use partition_filter::Filter;
use std::alloc::Global;

/// The last changes of the rows that a log's windows with since < SCN <= target change: those that the filter accepts, of the
/// first `most` rows behind the cursor. It reads one window after the other and holds one at a time, and
/// moves payloads out of it.
pub(crate) fn gather<G: WindowLog>(
    alloc: Global,
    log: &mut G,
    since: u64,
    target: u64,
    cursor: &Cursor,
    filter: &Filter,
    most: usize,
) -> Result<Latest, LogFault>
    requires low { (G.state log.old).floor ≤ since }
    ensures gathered { IfOk result (λ latest. GatheredFrom (test_of filter.now) cursor.now most since target (G.state log.old) latest.entries) }
    ensures reads { OnlyReads (G.state log.old) (G.state log.new) result }
    ensures crash { IfSome (G.state log.old).windows (λ ws. G.passes ws (at_rest (G.state log.old)) log.old log.new) }
{
    let _within = log.high();
    let mut latest = Latest::new(alloc);
    let mut at = since;
    'windows: while at < target {
        let Some(window) = next_upto(alloc, log, at, target)? else {
            return Ok(latest);
        };
        at = window.scn();
        take_changes(window.into_changes(), filter, cursor, most, &mut latest)?;
    }
    Ok(latest)
}

// The oldest window of a log behind an SCN and up to another, where there is one.
fn next_upto<G: WindowLog>(
    alloc: Global,
    log: &mut G,
    at: u64,
    target: u64,
) -> Result<Option<Window>, LogFault>
    requires { (G.state log.old).floor ≤ at }
    ensures found { IfOk result (λ found. FindsNext at target (G.state log.old) found) }
    ensures reads { OnlyReads (G.state log.old) (G.state log.new) result }
    ensures crash { IfSome (G.state log.old).windows (λ ws. G.passes ws (at_rest (G.state log.old)) log.old log.new) }
{
    let _within = log.high();
    let Some(window) = log.next(alloc, at)? else {
        return Ok(None);
    };
    if window.scn() > target {
        return Ok(None);
    }
    Ok(Some(window))
}
