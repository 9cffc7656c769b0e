ghost use Rattle.std.specs.Prelude.{◌≡◌, ℕ, false, List, Some, IfSome, Result};
ghost use Rattle.bus_types.specs.Window.{Span};
ghost use Rattle.bus_stores.specs.Keeper.{Content};
ghost use Rattle.bus_stores.specs.Log.{SameLog};
ghost use Rattle.bus_stores.specs.declared.boot_fault.BootFault.{BootFault as FaultValue};
ghost use Rattle.bootstrap_core.specs.declared.fault.TakeLog.{TakeLog as TakeFault};
ghost use Rattle.bootstrap_core.specs.Boot.{BootParts, told, Stands};
ghost use Rattle.bootstrap_core.specs.Logging.{IsRelayReply, TakesLog};
ghost use Rattle.bootstrap_core.specs.Moving.{AppliesBoot, Trims, CommitsFirst};
ghost use Rattle.log_store.specs.Store.{StoreParts, log_of, passes};
ghost use Rattle.log_boot.specs.Stops.{Runs, Rests, Grows, apply_commit, trim_commit, IsEither, IsEitherBy, NotBelow, SurvivesStops, SurvivesTrim, numbers_of};

use bus_stores::Keeper;
use log_disk::Disk;

/// A law of a bootstrap over a log on disks, through a stop of the disks at any moment of a call. Where it ran for a timeline,
/// what the call's clause on a crash says makes that the disks then hold a log which, with the keeper's content, stands for the
/// timeline at the boot mark that is stored, so that it is opened again (`open_boot`); and no number is below those before the
/// call.
///
/// A keeper that is stopped holds the content from before the call's commit or after it. Through `take_log` and `answer` there is
/// none; through `apply` it is that of the next windows, and the disks survive with either at each moment. Through `trim` it is
/// that of the later base: until it is made they survive with either, and from then on, when they may drop windows, with the one
/// after it.
pub fn a_bootstrap_survives_a_stop<D: Disk, K: Keeper>()
    ensures take_log { (ws : List Span) (c : Content) (n : ℕ) (reply : List ℕ) (old new : BootParts (StoreParts D) K) → Runs D.state K.state ws c old
        → IsRelayReply ws (log_of D.state old.log).high reply → Grows D.state n reply old.log new.log
        → SurvivesStops D.state ws (numbers_of D.state old) (λ d. d ≡ c) old.log new.log }
    ensures apply { (ws : List Span) (c : Content) (n : ℕ) (old new : BootParts (StoreParts D) K) → Runs D.state K.state ws c old
        → Rests D.state old.log new.log
        → SurvivesStops D.state ws (numbers_of D.state old) (IsEither (apply_commit ws (numbers_of D.state old) n) c) old.log new.log }
    ensures answer { (ws : List Span) (c : Content) (old new : BootParts (StoreParts D) K) → Runs D.state K.state ws c old → Rests D.state old.log new.log
        → SurvivesStops D.state ws (numbers_of D.state old) (λ d. d ≡ c) old.log new.log }
    ensures trim { (ws : List Span) (c : Content) (scn : ℕ) (result : Result ℕ FaultValue) (old new : BootParts (StoreParts D) K) → Runs D.state K.state ws c old
        → Trims result scn (told (log_of D.state) K.state old) (told (log_of D.state) K.state new)
        → CommitsFirst (passes D.state) (log_of D.state) K.state old new
        → SurvivesTrim D.state ws (numbers_of D.state old) (trim_commit ws (numbers_of D.state old) scn) c old.mark new.mark old.log new.log }

    // What the keeper tells after an apply or a trim is one of those contents.
    ensures applied { (ws : List Span) (c : Content) (n : ℕ) (result : Result ℕ FaultValue) (old new : BootParts (StoreParts D) K) → Runs D.state K.state ws c old
        → AppliesBoot result n (told (log_of D.state) K.state old) (told (log_of D.state) K.state new)
        → IfSome (K.state new.keeper).content (IsEither (apply_commit ws (numbers_of D.state old) n) c) }
    ensures trimmed { (ws : List Span) (c : Content) (scn : ℕ) (result : Result ℕ FaultValue) (old new : BootParts (StoreParts D) K) → Runs D.state K.state ws c old
        → Trims result scn (told (log_of D.state) K.state old) (told (log_of D.state) K.state new)
        → IfSome (K.state new.keeper).content (IsEitherBy (trim_commit ws (numbers_of D.state old) scn) old.mark new.mark c) }
{}

/// A law of a bootstrap over a log on disks, through calls. Where it ran for a timeline and still stands for it, it goes on after
/// the call, unless it is halted, at what its keeper then tells; and no number is below those before the call. So from one
/// opening to the next none falls below what was told between.
pub fn a_bootstrap_goes_on<D: Disk, K: Keeper>()
    ensures take_log { (ws : List Span) (c d : Content) (n : ℕ) (reply : List ℕ) (result : Result ℕ TakeFault) (old new : BootParts (StoreParts D) K) → Runs D.state K.state ws c old
        → TakesLog result n reply (told (log_of D.state) K.state old) (told (log_of D.state) K.state new)
        → Stands ws (told (log_of D.state) K.state new) → new.halted ≡ false → (K.state new.keeper).content ≡ Some d
        → Runs D.state K.state ws d new × NotBelow (numbers_of D.state old) (numbers_of D.state new) }
    ensures apply { (ws : List Span) (c d : Content) (n : ℕ) (result : Result ℕ FaultValue) (old new : BootParts (StoreParts D) K) → Runs D.state K.state ws c old
        → AppliesBoot result n (told (log_of D.state) K.state old) (told (log_of D.state) K.state new)
        → Stands ws (told (log_of D.state) K.state new) → new.halted ≡ false → (K.state new.keeper).content ≡ Some d
        → Runs D.state K.state ws d new × NotBelow (numbers_of D.state old) (numbers_of D.state new) }
    ensures trim { (ws : List Span) (c d : Content) (scn : ℕ) (result : Result ℕ FaultValue) (old new : BootParts (StoreParts D) K) → Runs D.state K.state ws c old
        → Trims result scn (told (log_of D.state) K.state old) (told (log_of D.state) K.state new)
        → Stands ws (told (log_of D.state) K.state new) → new.halted ≡ false → (K.state new.keeper).content ≡ Some d
        → Runs D.state K.state ws d new × NotBelow (numbers_of D.state old) (numbers_of D.state new) }
    ensures answer { (ws : List Span) (c d : Content) (old new : BootParts (StoreParts D) K) → Runs D.state K.state ws c old
        → SameLog (log_of D.state old.log) (log_of D.state new.log) → new.mark ≡ old.mark
        → Stands ws (told (log_of D.state) K.state new) → new.halted ≡ false → (K.state new.keeper).content ≡ Some d
        → Runs D.state K.state ws d new × NotBelow (numbers_of D.state old) (numbers_of D.state new) }
{}
