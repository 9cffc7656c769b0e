ghost use Rattle.std.specs.Prelude.{◌≤◌, IfSome};
ghost use Rattle.bus_stores.specs.Log.{at_rest};
ghost use Rattle.bus_stores.specs.Following.{ReadsWindows};

use crate::log::{LogFault, WindowLog};
use bus_types::Window;
use std::alloc::Global;

/// Copies of the oldest windows behind an SCN, at most so many, and fewer only where none is left. It asks the log for
/// one window after the other, and for none behind the newest. A crash meanwhile leaves the windows that were told.
pub fn next_windows<G: WindowLog>(
    alloc: Global,
    log: &mut G,
    scn: u64,
    most: usize,
) -> Result<Vec<Window>, LogFault>
    requires { (G.state log.old).floor ≤ scn }
    ensures reads { ReadsWindows scn most (G.state log.old) (G.state log.new) result }
    ensures crash { IfSome (G.state log.old).windows (λ ws. G.passes ws (at_rest (G.state log.old)) log.old log.new) }
{
    let high = log.high();
    let mut windows = Vec::new(alloc);
    let mut at = scn;
    'reads: while windows.len() < most && at < high {
        let Some(window) = log.next(alloc, at)? else {
            return Ok(windows);
        };
        at = window.scn();
        windows.push(window)?;
    }
    Ok(windows)
}
