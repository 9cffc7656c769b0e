ghost use Rattle.std.specs.Prelude.{◌≡◌, ◌<◌, ◌≤◌, ℕ, List, length, Some};
ghost use Rattle.bus_types.specs.Window.{Span};
ghost use Rattle.bus_types.specs.Timeline.{IsTimeline};
ghost use Rattle.bus_wire.specs.True.{Boot as Numbers};
ghost use Rattle.bus_stores.specs.Keeper.{Content};
ghost use Rattle.log_store.specs.Opening.{AllTell};
ghost use Rattle.log_boot.specs.Stops.{Survives};
ghost use Rattle.log_boot.specs.Reopening.{OpensBoot, OpensOver, StandsOver, RunsAgain};

use bootstrap_core::{Boot, BootOpen};
use bus_stores::Keeper;
use log_disk::Disk;
use log_store::{LogStore, OpenLog};
use std::alloc::Global;

/// Why no bootstrap was opened over disks and a keeper.
#[derive(Clone, Copy, Debug, PartialEq, Eq)]
pub enum OpenBoot {
    /// The disks were not opened as a log.
    Log(OpenLog),
    /// They were, and no bootstrap was opened over it and the keeper.
    Boot(BootOpen),
}

// Opens a bootstrap over a log on disks and a keeper.
fn over_log<D: Disk + Drop, K: Keeper>(
    alloc: Global,
    log: LogStore<D>,
    keeper: K,
) -> Result<Boot<LogStore<D>, K>, (OpenBoot, Vec<D>, K)>
    ensures opens { OpensOver D.state K.state log keeper result }
    ensures stands { StandsOver D.state K.state log keeper result }
{
    match Boot::open(alloc, log, keeper) {
        Ok(boot) => Ok(boot),
        Err((fault, log, keeper)) => Err((OpenBoot::Boot(fault), log.into_disks(), keeper)),
    }
}

/// Opens 1 to 16 disks as a log, and a bootstrap over it and a keeper, at the boot mark that the keeper stores. Faults come as
/// `LogStore::open` and then `Boot::open` say. Disks and keeper are handed back with the fault, and are as before.
///
/// After a stop that a bootstrap of a timeline survives, whichever call it was in, it stands for that timeline again, at the
/// numbers that are stored. None of them is below those before the call. Then a fault comes of the outside alone: `Failed` of a
/// disk, `StoreFailed` of the keeper, or want of memory.
pub fn open_boot<D: Disk + Drop, K: Keeper>(
    alloc: Global,
    disks: Vec<D>,
    keeper: K,
) -> Result<Boot<LogStore<D>, K>, (OpenBoot, Vec<D>, K)>
    requires some { 0 < length disks.items }
    requires few { length disks.items ≤ 16 }
    ensures opens { OpensBoot D.state K.state disks.items keeper result }
    ensures survives { (ws : List Span) (least : Numbers) (c : Content) (images : List (List ℕ)) → IsTimeline ws → AllTell D.state disks.items images
        → (K.state keeper).content ≡ Some c → Survives ws least c images → RunsAgain D.state K.state ws least c result }
{
    match LogStore::open(alloc, disks) {
        Ok(log) => over_log(alloc, log, keeper),
        Err((fault, disks)) => Err((OpenBoot::Log(fault), disks, keeper)),
    }
}
