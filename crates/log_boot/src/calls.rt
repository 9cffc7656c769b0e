ghost use Rattle.std.specs.Prelude.{◌≡◌, ◌≤◌, ℕ, List, Some, false};
ghost use Rattle.bus_types.specs.Window.{Span};
ghost use Rattle.bus_stores.specs.Keeper.{Content};
ghost use Rattle.bootstrap_core.specs.Boot.{told};
ghost use Rattle.bootstrap_core.specs.Logging.{IsRelayReply, TakesLog};
ghost use Rattle.bootstrap_core.specs.Moving.{AppliesBoot, Trims};
ghost use Rattle.log_store.specs.Store.{log_of};
ghost use Rattle.log_boot.specs.Stops.{Runs, apply_commit, trim_commit, IsEither, NotBelow, SurvivesStops, SurvivesTrim, numbers_of};

use crate::laws::{a_bootstrap_goes_on, a_bootstrap_survives_a_stop};
use bootstrap_core::{Boot, BootFault, TakeLog};
use bus_stores::Keeper;
use log_disk::Disk;
use log_store::LogStore;
use std::alloc::Global;

/// As `Boot::take_log`, over a log on disks. Where the bootstrap ran for a timeline and the reply is true of it, a stop of the disks
/// at any moment of the call leaves what it is opened from again, with what the keeper holds, which is as it was. It runs on
/// afterwards, unless it is halted, and none of its numbers falls.
pub fn take_log<D: Disk, K: Keeper>(
    alloc: Global,
    boot: &mut Boot<LogStore<D>, K>,
    reply: &[u8],
    n: u32,
) -> Result<u64, TakeLog>
    ensures takes { TakesLog result n reply.now (told (log_of D.state) K.state boot.old) (told (log_of D.state) K.state boot.new) }
    ensures keeper { boot.new.keeper ≡ boot.old.keeper }
    ensures survives { (ws : List Span) (c : Content) → Runs D.state K.state ws c boot.old → IsRelayReply ws (log_of D.state boot.old.log).high reply.now
        → SurvivesStops D.state ws (numbers_of D.state boot.old) (λ d. d ≡ c) boot.old.log boot.new.log }
    ensures goes_on { (ws : List Span) (c d : Content) → Runs D.state K.state ws c boot.old → IsRelayReply ws (log_of D.state boot.old.log).high reply.now
        → boot.new.halted ≡ false → (K.state boot.new.keeper).content ≡ Some d
        → Runs D.state K.state ws d boot.new × NotBelow (numbers_of D.state boot.old) (numbers_of D.state boot.new) }
{
    a_bootstrap_survives_a_stop::<D, K>();
    a_bootstrap_goes_on::<D, K>();
    boot.take_log(alloc, reply, n)
}

/// As `Boot::apply`, over a log on disks. Where the bootstrap ran for a timeline, a stop of the disks at any moment of the call
/// leaves what it is opened from again, with what the keeper held before the commit of the next windows, or holds after it. It
/// runs on afterwards, unless it is halted, and none of its numbers falls.
pub fn apply<D: Disk, K: Keeper>(
    alloc: Global,
    boot: &mut Boot<LogStore<D>, K>,
    n: u32,
) -> Result<u64, BootFault>
    requires some { 1 ≤ n }
    requires few { n ≤ 32 }
    ensures applies { AppliesBoot result n (told (log_of D.state) K.state boot.old) (told (log_of D.state) K.state boot.new) }
    ensures survives { (ws : List Span) (c : Content) → Runs D.state K.state ws c boot.old
        → SurvivesStops D.state ws (numbers_of D.state boot.old) (IsEither (apply_commit ws (numbers_of D.state boot.old) n) c) boot.old.log boot.new.log }
    ensures goes_on { (ws : List Span) (c d : Content) → Runs D.state K.state ws c boot.old → boot.new.halted ≡ false
        → (K.state boot.new.keeper).content ≡ Some d
        → Runs D.state K.state ws d boot.new × NotBelow (numbers_of D.state boot.old) (numbers_of D.state boot.new) }
{
    a_bootstrap_survives_a_stop::<D, K>();
    a_bootstrap_goes_on::<D, K>();
    boot.apply(alloc, n)
}

/// As `Boot::trim`, over a log on disks. Where the bootstrap ran for a timeline, a stop of the disks at any moment of the call
/// leaves what it is opened from again, with what the keeper may hold at that moment: until the commit of the later base is made,
/// what it held before or holds after it, and from then on the latter. After a commit that failed the log stays. It runs on
/// afterwards, unless it is halted, and none of its numbers falls.
pub fn trim<D: Disk, K: Keeper>(
    alloc: Global,
    boot: &mut Boot<LogStore<D>, K>,
    scn: u64,
) -> Result<u64, BootFault>
    ensures trims { Trims result scn (told (log_of D.state) K.state boot.old) (told (log_of D.state) K.state boot.new) }
    ensures survives { (ws : List Span) (c : Content) → Runs D.state K.state ws c boot.old
        → SurvivesTrim D.state ws (numbers_of D.state boot.old) (trim_commit ws (numbers_of D.state boot.old) scn) c boot.old.mark boot.new.mark boot.old.log boot.new.log }
    ensures goes_on { (ws : List Span) (c d : Content) → Runs D.state K.state ws c boot.old → boot.new.halted ≡ false
        → (K.state boot.new.keeper).content ≡ Some d
        → Runs D.state K.state ws d boot.new × NotBelow (numbers_of D.state boot.old) (numbers_of D.state boot.new) }
{
    a_bootstrap_survives_a_stop::<D, K>();
    a_bootstrap_goes_on::<D, K>();
    boot.trim(alloc, scn)
}
