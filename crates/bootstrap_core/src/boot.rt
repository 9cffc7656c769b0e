ghost use Rattle.std.specs.Prelude.{◌≡◌, ◌≤◌, List, Some, MatchOption, MatchResult, IsSome, IfOk, IfErr};
ghost use Rattle.bus_types.specs.Change.{Test};
ghost use Rattle.bus_types.specs.Window.{Span};
ghost use Rattle.event_codec.specs.Frames.{IsAnswer};
ghost use Rattle.event_codec.specs.Questions.{Question, Reply};
ghost use Rattle.bus_wire.specs.True.{boot_reply};
ghost use Rattle.bus_stores.specs.Keeper.{SameStore, BothTold};
ghost use Rattle.bus_stores.specs.Log.{LogState, IsLog};
ghost use Rattle.snapshot_applier.specs.BootMark.{IsBootMark, IsBootStored};
ghost use Rattle.snapshot_applier.specs.declared.boot.BootMark.{BootMark};
ghost use Rattle.bootstrap_core.specs.Boot.{told, numbers, IsBetween, Stands, StandsForBoot};
ghost use Rattle.bootstrap_core.specs.Opening.{Stores, IsOpened, OpensNot, Unread, IsMisplaced};

use crate::fault::BootOpen;
use bus_stores::{Keeper, StoreFault, WindowLog};
use bus_types::MarkText;
use event_codec::Answer;
use snapshot_applier::{BootMark, BootTextFault, read_boot};
use std::alloc::Global;
use std::marker::Model;

/// A bootstrap: a log of windows longer than the relay's, and a keeper of the source's table at the SCN `applied`. The log
/// has at least the windows with `base < SCN <= high`, and `base <= applied <= high`. Contracts see log, keeper, boot mark
/// and whether it is halted.
#[derive(Debug, Drop)]
pub struct Boot<G: WindowLog, K: Keeper> {
    pub(crate) log: G,
    pub(crate) keeper: K,
    pub(crate) mark: BootMark,
    pub(crate) halted: bool,
}

impl<G: WindowLog, K: Keeper> Model for Boot<G, K> {
    ghost use Rattle.std.specs.Prelude.{◌≡◌, false};
    ghost use Rattle.snapshot_applier.specs.BootMark.{IsBootMark};
    ghost use Rattle.bootstrap_core.specs.Boot.{BootParts, IsBetween};

    ghost Value = { BootParts G K };

    ghost view = { λ b. record { log = b.log; keeper = b.keeper; mark = b.mark; halted = b.halted } };

    ghost invariant = { λ b. IsBootMark b.mark × (b.halted ≡ false → IsBetween (G.state b.log) b.mark) };
}

impl<G: WindowLog, K: Keeper> Boot<G, K> {
    /// Opens a bootstrap over a log and a keeper, at the boot mark that the keeper stores, or at base 0 and applied 0 where
    /// it stores none. The first fault that applies comes: `StoreFailed` only where the keeper's count rose, `BadMark`
    /// exactly where the stored text is no boot mark's, `Ahead` exactly where applied is above the log's newest window, and
    /// `Hole` exactly where the log begins above base.
    pub fn open(alloc: Global, log: G, keeper: K) -> Result<Boot<G, K>, (BootOpen, G, K)>
        ensures opened { IfOk result (λ boot. IsOpened (G.state log) (K.state keeper) (told G.state K.state boot)) }
        ensures log { IfOk result (λ boot. boot.log ≡ log) }
        ensures fault { IfErr result (λ e. OpensNot e.0 (G.state log) (K.state keeper) (K.state e.2)) }
        ensures back { IfErr result (λ e. (e.1 ≡ log) × SameStore (K.state keeper) (K.state e.2)) }
        ensures faults { MatchResult result (λ boot. (K.state keeper).faults ≤ (K.state boot.keeper).faults)
            (λ e. (K.state keeper).faults ≤ (K.state e.2).faults) }
        ensures calls { MatchResult result (λ boot. BothTold (λ a b. a ≤ b) (K.state keeper).calls (K.state boot.keeper).calls)
            (λ e. BothTold (λ a b. a ≤ b) (K.state keeper).calls (K.state e.2).calls) }

        // Log and keeper of a bootstrap that stood for a timeline give one that does, at the same numbers, where the keeper still
        // tells its content.
        ensures stands { (ws : List Span) (mark : BootMark) → StandsForBoot ws (G.state log) (K.state keeper) mark →
            IfOk result (λ boot. IsSome (K.state boot.keeper).content → (boot.mark ≡ mark) × Stands ws (told G.state K.state boot)) }
    {
        let mut keeper = keeper;
        let mark = match stored_mark(alloc, &mut keeper) {
            Ok(mark) => mark,
            Err(fault) => return Err((fault, log, keeper)),
        };
        match place_fault(&log, &mark) {
            Some(fault) => Err((fault, log, keeper)),
            None => Ok(Boot {
                log,
                keeper,
                mark,
                halted: false,
            }),
        }
    }

    /// The SCN behind which the log is sure to begin.
    pub fn base(&self) -> u64
        ensures value { result ≡ self.now.mark.base }
        ensures lawful { IsBootMark self.now.mark }
    {
        self.mark.base
    }

    /// The SCN up to which windows were applied.
    pub fn applied(&self) -> u64
        ensures value { result ≡ self.now.mark.applied }
        ensures lawful { IsBootMark self.now.mark }
    {
        self.mark.applied
    }

    /// The SCN of the log's newest window.
    pub fn high(&self) -> u64
        ensures value { result ≡ (G.state self.now.log).high }
        ensures log { IsLog (G.state self.now.log) }
    {
        self.log.high()
    }

    /// Whether it has met a fault of its log or its keeper, and so does nothing more.
    pub fn is_halted(&self) -> bool
        ensures { result ≡ self.now.halted }
    {
        self.halted
    }

    /// How a consumer is to start, whose rows are the table at `since`; where `fresh` is true it gives them up, so that only
    /// a snapshot helps, and that is not to end before `since`. A delta goes from `since` to the number of `StartDelta`.
    pub fn start(&self, since: u64, fresh: bool) -> Answer
        ensures within { IsAnswer result }
        ensures reply { (ws : List Span) (test : Test)
            → boot_reply ws test (numbers (G.state self.now.log) self.now.mark) (Question.Start since fresh) ≡ Reply.Only result }
    {
        let high = self.log.high();
        if fresh {
            return if high < since {
                Answer::Behind(high)
            } else {
                Answer::StartSnapshot(self.mark.applied)
            };
        }
        if high <= since {
            Answer::Behind(high)
        } else if self.mark.base <= since {
            Answer::StartDelta(high)
        } else {
            Answer::StartSnapshot(self.mark.applied)
        }
    }

    /// Up to where a scan that began at `start` is to be replayed, at least up to `atleast`.
    pub fn target(&self, start: u64, atleast: u64) -> Answer
        ensures within { IsAnswer result }
        ensures reply { (ws : List Span) (test : Test)
            → boot_reply ws test (numbers (G.state self.now.log) self.now.mark) (Question.Target start atleast) ≡ Reply.Only result }
    {
        let high = self.log.high();
        if self.mark.base > start {
            Answer::LogGone(self.mark.base)
        } else if high < start || high < atleast {
            Answer::Behind(high)
        } else {
            Answer::Target(high)
        }
    }

    /// Its log and its keeper. It takes no memory.
    pub fn parts(self) -> (G, K)
        ensures log { result.0 ≡ self.log }
        ensures keeper { result.1 ≡ self.keeper }
    {
        (self.log, self.keeper)
    }
}

// The boot mark that a keeper stores.
fn stored_mark<K: Keeper>(alloc: Global, keeper: &mut K) -> Result<BootMark, BootOpen>
    ensures lawful { IfOk result IsBootMark }
    ensures stored { IfOk result (Stores (K.state keeper.new)) }
    ensures fault { IfErr result (λ fault. (log : LogState) → OpensNot fault log (K.state keeper.old) (K.state keeper.new)) }
    ensures same { SameStore (K.state keeper.old) (K.state keeper.new) }
    ensures faults { (K.state keeper.old).faults ≤ (K.state keeper.new).faults }
    ensures calls { BothTold (λ a b. a ≤ b) (K.state keeper.old).calls (K.state keeper.new).calls }
{
    match keeper.mark(alloc) {
        Ok(stored) => mark_in(alloc, stored),
        Err(StoreFault::Failed) => Err(BootOpen::StoreFailed),
        Err(StoreFault::NoMemory) => Err(BootOpen::NoMemory),
    }
}

// The boot mark that a stored text is; without one nothing was logged.
fn mark_in(alloc: Global, stored: Option<MarkText>) -> Result<BootMark, BootOpen>
    ensures lawful { IfOk result IsBootMark }
    ensures stored { IfOk result (IsBootStored stored) }
    ensures fault { IfErr result (Unread stored) }
{
    let Some(text) = &stored else {
        return Ok(BootMark {
            base: 0,
            applied: 0,
        });
    };
    match read_boot(alloc, text) {
        Ok(mark) => Ok(mark),
        Err(BootTextFault::BadMark) => Err(BootOpen::BadMark),
        Err(BootTextFault::NoMemory) => Err(BootOpen::NoMemory),
    }
}

// Why a boot mark doesn't lie between the ends of a log.
fn place_fault<G: WindowLog>(log: &G, mark: &BootMark) -> Option<BootOpen>
    requires { IsBootMark mark.now }
    ensures { MatchOption result (IsBetween (G.state log.now) mark.now) (IsMisplaced (G.state log.now) mark.now) }
{
    let high = log.high();
    if mark.applied > high {
        return Some(BootOpen::Ahead {
            applied: mark.applied,
            high,
        });
    }
    let floor = log.floor();
    if floor > mark.base {
        return Some(BootOpen::Hole {
            base: mark.base,
            floor,
        });
    }
    None
}
