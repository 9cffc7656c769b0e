ghost use Rattle.std.specs.Prelude.{◌≡◌, ◌<◌, ◌≤◌, ◌↔◌, true, false, List, IfOk, IfSome, IsErrOf};
ghost use Rattle.bus_types.specs.Window.{Span};
ghost use Rattle.bus_types.specs.Timeline.{IsTimeline};
ghost use Rattle.bus_stores.specs.Keeper.{BothTold, Commits};
ghost use Rattle.bus_stores.specs.Log.{IsLog, at_rest, dropping_to};
ghost use Rattle.snapshot_applier.specs.declared.boot.BootMark.{BootMark};
ghost use Rattle.snapshot_applier.specs.BootMark.{IsBootMark};
ghost use Rattle.bootstrap_core.specs.Boot.{told, Stands, StandsForBoot};
ghost use Rattle.bootstrap_core.specs.Moving.{AppliesBoot, TellsWindows, DropsEach, Trims, CommitsFirst, base_move};
ghost use Rattle.bootstrap_core.specs.Trimming.{halted_at, of_log, of_store, ReadsUpto, ReadsNewest, DropsOrFails, SetsBase};

use crate::boot::Boot;
use bus_stores::{BootFault, Keeper, LogFault, StoreFault, WindowLog};
use snapshot_applier::{BootMark, boot_text};
use std::alloc::Global;

impl<G: WindowLog, K: Keeper> Boot<G, K> {
    /// Applies the next at most `n` logged windows to the table, in one commit with the boot mark, and answers `applied`
    /// after that. Where no window is left it commits nothing.
    ///
    /// `Halted` comes exactly after a fault of log or keeper. `LogFailed` and `StoreFailed` come only where that one's count
    /// rose; the bootstrap is then halted, and the keeper is as before the commit or as after it. After want of memory nothing
    /// changed. A crash meanwhile leaves the log's windows that were told.
    #[tactic(auto, using(bus_stores::proofs::Held::same_calls))]
    pub fn apply(&mut self, alloc: Global, n: u32) -> Result<u64, BootFault>
        requires some { 1 ≤ n }
        requires few { n ≤ 32 }
        ensures halted { IsErrOf result BootFault.Halted ↔ (self.old.halted ≡ true) }
        ensures applies { AppliesBoot result n (told G.state K.state self.old) (told G.state K.state self.new) }
        ensures log_faults { (G.state self.old.log).faults ≤ (G.state self.new.log).faults }
        ensures faults { (K.state self.old.keeper).faults ≤ (K.state self.new.keeper).faults }
        ensures calls { BothTold (λ a b. a ≤ b) (K.state self.old.keeper).calls (K.state self.new.keeper).calls }
        ensures room { (G.state self.new.log).room ≡ (G.state self.old.log).room }
        ensures sound { IsErrOf result BootFault.LogFailed → IfSome (G.state self.old.log).room (λ room. room.sound ≡ false) }
        ensures crash { self.old.halted ≡ false → IfSome (G.state self.old.log).windows
            (λ ws. G.passes ws (at_rest (G.state self.old.log)) self.old.log self.new.log) }

        // One that stands for a timeline, whose log tells its windows, still does; after a fault of the keeper, at the numbers
        // before the commit or after.
        ensures stands { (ws : List Span) → IsTimeline ws → Stands ws (told G.state K.state self.old)
            → TellsWindows (G.state self.old.log) → self.new.halted ≡ false →
            Stands ws (told G.state K.state self.new) }
        ensures reopens { (ws : List Span) → IsTimeline ws → Stands ws (told G.state K.state self.old)
            → TellsWindows (G.state self.old.log) → self.old.halted ≡ false →
            (mark : BootMark) × StandsForBoot ws (G.state self.new.log) (K.state self.new.keeper) mark }
    {
        if self.halted {
            return Err(BootFault::Halted);
        }
        let _within = self.log.high();
        match snapshot_applier::apply(alloc, &mut self.log, &mut self.keeper, &self.mark, n) {
            Ok(mark) => {
                self.mark = mark;
                Ok(mark.applied)
            }
            Err(fault) => Err(self.halt_at(fault)),
        }
    }

    // Halts at a fault of log or keeper.
    fn halt_at(&mut self, fault: BootFault) -> BootFault
        ensures fault { result ≡ fault }
        ensures halted { self.new ≡ halted_at fault self.old }
    {
        match fault {
            BootFault::NoMemory => {}
            BootFault::LogFailed | BootFault::StoreFailed | BootFault::Halted => self.halted = true,
        }
        fault
    }

    /// Sets `base` to the SCN of the newest window that is neither above `scn` nor above `applied`, where that is above the
    /// old one: commits the boot mark, and then drops windows up to it from the log, which may keep some, as it does where
    /// memory runs out in that. It answers `base` after that. It takes time in proportion to the windows between the two.
    ///
    /// `Halted` comes exactly after a fault of log or keeper. `LogFailed` and `StoreFailed` come only where that one's count
    /// rose; the bootstrap is then halted, and the keeper is as before the commit or as after it. After want of memory nothing
    /// changed. A crash meanwhile leaves the log's windows that were told, or, once the new base is committed, those behind a
    /// floor up to that.
    #[tactic(auto, using(bus_stores::proofs::Held::same_calls))]
    pub fn trim(&mut self, alloc: Global, scn: u64) -> Result<u64, BootFault>
        ensures halted { IsErrOf result BootFault.Halted ↔ (self.old.halted ≡ true) }
        ensures trims { Trims result scn (told G.state K.state self.old) (told G.state K.state self.new) }
        ensures log_faults { (G.state self.old.log).faults ≤ (G.state self.new.log).faults }
        ensures faults { (K.state self.old.keeper).faults ≤ (K.state self.new.keeper).faults }
        ensures calls { BothTold (λ a b. a ≤ b) (K.state self.old.keeper).calls (K.state self.new.keeper).calls }
        ensures room { (G.state self.new.log).room ≡ (G.state self.old.log).room }
        ensures sound { IsErrOf result BootFault.LogFailed → IfSome (G.state self.old.log).room (λ room. room.sound ≡ false) }
        ensures crash { self.old.halted ≡ false → IfSome (G.state self.old.log).windows
            (λ ws. G.passes ws (dropping_to self.new.mark.base (G.state self.old.log)) self.old.log self.new.log) }
        ensures order { self.old.halted ≡ false → CommitsFirst G.passes G.state K.state self.old self.new }

        // A log that tells its windows, begins at the base, and drops every window that it may begins at the new base.
        ensures floor { TellsWindows (G.state self.old.log) → DropsEach (G.state self.old.log)
            → (G.state self.old.log).floor ≡ self.old.mark.base → self.new.halted ≡ false →
            (G.state self.new.log).floor ≡ self.new.mark.base }

        // One that stands for a timeline, whose log tells its windows, still does; after a fault of the keeper, at the base
        // before the commit or after. After a fault of the log that is opened again.
        ensures stands { (ws : List Span) → IsTimeline ws → Stands ws (told G.state K.state self.old)
            → TellsWindows (G.state self.old.log) → self.new.halted ≡ false →
            Stands ws (told G.state K.state self.new) }
        ensures reopens { (ws : List Span) → IsTimeline ws → Stands ws (told G.state K.state self.old)
            → TellsWindows (G.state self.old.log) → self.old.halted ≡ false →
            IsErrOf result BootFault.StoreFailed → (mark : BootMark) × StandsForBoot ws (G.state self.new.log) (K.state self.new.keeper) mark }
    {
        if self.halted {
            return Err(BootFault::Halted);
        }
        let upto = scn.min(self.mark.applied);
        match newest(alloc, &mut self.log, self.mark.base, upto) {
            Ok(base) if base > self.mark.base => self.set_base(alloc, base),
            Ok(base) => Ok(base),
            Err(fault) => Err(self.halt_at(boot_fault(fault))),
        }
    }

    // Commits a later base, and then drops windows up to it.
    fn set_base(&mut self, alloc: Global, base: u64) -> Result<u64, BootFault>
        requires runs { self.old.halted ≡ false }
        requires later { self.old.mark.base < base }
        requires within { base ≤ self.old.mark.applied }
        ensures sets { SetsBase result base (told G.state K.state self.old) (told G.state K.state self.new) }
        ensures log { IfOk result (λ done. IsLog (G.state self.new.log)) }
        ensures calls { BothTold (λ a b. a ≤ b) (K.state self.old.keeper).calls (K.state self.new.keeper).calls }
        ensures room { (G.state self.new.log).room ≡ (G.state self.old.log).room }
        ensures order { CommitsFirst G.passes G.state K.state self.old self.new }
        ensures log_faults { (G.state self.old.log).faults ≤ (G.state self.new.log).faults }
        ensures faults { (K.state self.old.keeper).faults ≤ (K.state self.new.keeper).faults }
        ensures sound { IsErrOf result BootFault.LogFailed → IfSome (G.state self.old.log).room (λ room. room.sound ≡ false) }
    {
        let _rests = self.log.high();
        let mark = BootMark {
            base,
            applied: self.mark.applied,
        };
        match set_mark(alloc, &mut self.keeper, &mark) {
            Ok(()) => {}
            Err(fault) => return Err(self.halt_at(store_fault(fault))),
        }
        self.mark = mark;
        match drop_windows(alloc, &mut self.log, base) {
            Ok(()) => Ok(base),
            Err(fault) => {
                self.halted = true;
                Err(fault)
            }
        }
    }
}

// Commits a boot mark alone.
fn set_mark<K: Keeper>(alloc: Global, keeper: &mut K, mark: &BootMark) -> Result<(), StoreFault>
    requires { IsBootMark mark.now }
    ensures { Commits (base_move mark.now) (K.state keeper.old) (K.state keeper.new) result }
{
    let text = boot_text(alloc, mark)?;
    keeper.commit(alloc, false, &[], &text)
}

// Drops windows up to an SCN from a log, of which it tells that it is one.
fn drop_windows<G: WindowLog>(alloc: Global, log: &mut G, scn: u64) -> Result<(), BootFault>
    ensures drops { DropsOrFails result scn (G.state log.old) (G.state log.new) }
    ensures log { IsLog (G.state log.new) }
    ensures faults { (G.state log.old).faults ≤ (G.state log.new).faults }
    ensures room { (G.state log.new).room ≡ (G.state log.old).room }
    ensures crash { IfSome (G.state log.old).windows (λ ws. G.passes ws (dropping_to scn (G.state log.old)) log.old log.new) }
{
    let dropped = drop_or_keep(alloc, log, scn);
    let _begins = log.floor();
    dropped
}

// Drops windows up to an SCN. Where memory runs out the log keeps them, as it may.
fn drop_or_keep<G: WindowLog>(alloc: Global, log: &mut G, scn: u64) -> Result<(), BootFault>
    ensures drops { DropsOrFails result scn (G.state log.old) (G.state log.new) }
    ensures faults { (G.state log.old).faults ≤ (G.state log.new).faults }
    ensures room { (G.state log.new).room ≡ (G.state log.old).room }
    ensures crash { IfSome (G.state log.old).windows (λ ws. G.passes ws (dropping_to scn (G.state log.old)) log.old log.new) }
{
    let _begins = log.floor();
    match log.drop_through(alloc, scn) {
        Ok(()) => Ok(()),
        Err(LogFault::NoMemory) => Ok(()),
        Err(LogFault::Failed | LogFault::Full) => Err(BootFault::LogFailed),
    }
}

// The SCN of the newest window behind one SCN that isn't above another, or the first SCN.
fn newest<G: WindowLog>(alloc: Global, log: &mut G, base: u64, upto: u64) -> Result<u64, LogFault>
    requires { (G.state log.old).floor ≤ base }
    ensures reads { ReadsNewest base upto (G.state log.old) (G.state log.new) result }
    ensures log { IsLog (G.state log.old) }
    ensures crash { IfSome (G.state log.old).windows (λ ws. G.passes ws (at_rest (G.state log.old)) log.old log.new) }
{
    let _rising = log.high();
    let mut found = base;
    'reads: while found < upto {
        match next_upto(alloc, log, found, upto)? {
            Some(scn) => found = scn,
            None => return Ok(found),
        }
    }
    Ok(found)
}

// The SCN of the oldest window behind one SCN, where it isn't above another.
fn next_upto<G: WindowLog>(
    alloc: Global,
    log: &mut G,
    scn: u64,
    upto: u64,
) -> Result<Option<u64>, LogFault>
    requires { (G.state log.old).floor ≤ scn }
    ensures reads { ReadsUpto scn upto (G.state log.old) (G.state log.new) result }
    ensures crash { IfSome (G.state log.old).windows (λ ws. G.passes ws (at_rest (G.state log.old)) log.old log.new) }
{
    let Some(window) = log.next(alloc, scn)? else {
        return Ok(None);
    };
    let next = window.scn();
    if next <= upto {
        Ok(Some(next))
    } else {
        Ok(None)
    }
}

// What a log met that appends nothing, so that it never wants room.
fn boot_fault(fault: LogFault) -> BootFault
    ensures { result ≡ of_log fault }
{
    match fault {
        LogFault::NoMemory => BootFault::NoMemory,
        LogFault::Failed | LogFault::Full => BootFault::LogFailed,
    }
}

// What a keeper met.
fn store_fault(fault: StoreFault) -> BootFault
    ensures { result ≡ of_store fault }
{
    match fault {
        StoreFault::NoMemory => BootFault::NoMemory,
        StoreFault::Failed => BootFault::StoreFailed,
    }
}
