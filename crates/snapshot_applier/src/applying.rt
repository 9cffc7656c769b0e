ghost use Rattle.std.specs.Prelude.{◌≡◌, ◌++◌, ◌≤◌, ◌<◌, ℕ, List, IfOk, IfSome, IsErrOf, flat_map, false, Some};
ghost use Rattle.bus_types.specs.declared.limits.TheConstants.{MAX_SCN};
ghost use Rattle.bus_types.specs.Window.{Span};
ghost use Rattle.bus_types.specs.Timeline.{IsTimeline};
ghost use Rattle.bus_stores.specs.Keeper.{BothTold, move_of};
ghost use Rattle.bus_stores.specs.Log.{SameLog, at_rest};
ghost use Rattle.bus_stores.specs.Following.{RiseBetween};
ghost use Rattle.bus_stores.specs.Taking.{Takes};
ghost use Rattle.snapshot_applier.specs.BootMark.{IsBootMark, boot_mark_text};
ghost use Rattle.snapshot_applier.specs.Apply.{Applies, Advances, applied_after, commit_of};
ghost use Rattle.snapshot_applier.specs.Standing.{IsLogOf, StandsAt, next_mark, StandsAfter};

use crate::boot::BootMark;
use crate::text::boot_text;
use bus_stores::{BootFault, Keeper, LogFault, StoreFault, WindowLog, next_windows};
use bus_types::{Change, NoMemory, Window};
use std::alloc::Global;

/// Applies the next at most `n` windows of the log to the keeper's rows, in one commit with the new boot mark, and answers
/// that mark. Where no window is left it commits nothing and answers the mark that it was given.
///
/// `LogFailed` comes only where the log's count of faults rose, and `StoreFailed` only where the keeper's did; the keeper is
/// then as before the commit or as after it. After `LogFailed` and `NoMemory` it is as before. `Halted` never comes. A crash
/// meanwhile leaves the log's windows that were told.
pub fn apply<G: WindowLog, K: Keeper>(
    alloc: Global,
    log: &mut G,
    keeper: &mut K,
    mark: &BootMark,
    n: u32,
) -> Result<BootMark, BootFault>
    requires low { (G.state log.old).floor ≤ mark.now.applied }
    requires high { mark.now.applied ≤ (G.state log.old).high }
    requires order { mark.now.base ≤ mark.now.applied }
    requires some { 1 ≤ n }
    requires few { n ≤ 32 }
    ensures applies { Applies result mark.now n (G.state log.old) (G.state log.new) (K.state keeper.old) (K.state keeper.new) }
    ensures table { (ws : List Span) → IsTimeline ws → IsLogOf ws (G.state log.old) → IfSome (K.state keeper.old).content (StandsAt ws mark.now)
        → StandsAfter ws mark.now (next_mark ws mark.now n (G.state log.old).high) result (K.state keeper.new) }
    ensures next { IfOk result (λ next. Advances mark.now next (G.state log.old).high) }
    ensures sound { IsErrOf result BootFault.LogFailed → IfSome (G.state log.old).room (λ room. room.sound ≡ false) }
    ensures calls { BothTold (λ a b. a ≤ b) (K.state keeper.old).calls (K.state keeper.new).calls }
    ensures log { SameLog (G.state log.old) (G.state log.new) }
    ensures crash { IfSome (G.state log.old).windows (λ ws. G.passes ws (at_rest (G.state log.old)) log.old log.new) }
    ensures log_faults { (G.state log.old).faults ≤ (G.state log.new).faults }
    ensures faults { (K.state keeper.old).faults ≤ (K.state keeper.new).faults }
{
    let _within = log.high();
    let windows = match next_windows(alloc, log, mark.applied, n as usize) {
        Ok(windows) => windows,
        Err(LogFault::NoMemory) => return Err(BootFault::NoMemory),
        Err(LogFault::Failed | LogFault::Full) => return Err(BootFault::LogFailed),
    };
    match apply_windows(alloc, keeper, mark, windows) {
        Ok(next) => Ok(next),
        Err(StoreFault::Failed) => Err(BootFault::StoreFailed),
        Err(StoreFault::NoMemory) => Err(BootFault::NoMemory),
    }
}

// Applies windows that rise from the mark on, and answers the mark behind them. Without a window it commits nothing.
fn apply_windows<K: Keeper>(
    alloc: Global,
    keeper: &mut K,
    mark: &BootMark,
    windows: Vec<Window>,
) -> Result<BootMark, StoreFault>
    requires mark { IsBootMark mark.now }
    requires rising { (high : ℕ) × RiseBetween mark.now.applied high windows.items }
    ensures takes { Takes (commit_of mark.now windows.items) (K.state keeper.old) (K.state keeper.new) result }
    ensures next { IfOk result (λ next. next ≡ applied_after mark.now windows.items) }
    ensures advances { IfOk result (λ next. (high : ℕ) → mark.now.applied ≤ high → RiseBetween mark.now.applied high windows.items
        → Advances mark.now next high) }
{
    let next = mark_after(mark, &windows);
    if !windows.is_empty() {
        commit(alloc, keeper, windows, &next)?;
    }
    Ok(next)
}

// The mark behind windows that rise from it on.
fn mark_after(mark: &BootMark, windows: &[Window]) -> BootMark
    requires mark { IsBootMark mark.now }
    requires rising { (high : ℕ) × RiseBetween mark.now.applied high windows.now }
    ensures after { result ≡ applied_after mark.now windows.now }
    ensures lawful { IsBootMark result }
    ensures advances { (high : ℕ) → mark.now.applied ≤ high → RiseBetween mark.now.applied high windows.now → Advances mark.now result high }
{
    match windows.last() {
        None => *mark,
        Some(last) => BootMark {
            base: mark.base,
            applied: last.scn(),
        },
    }
}

// Commits the changes of windows with a boot mark.
fn commit<K: Keeper>(
    alloc: Global,
    keeper: &mut K,
    windows: Vec<Window>,
    mark: &BootMark,
) -> Result<(), StoreFault>
    requires { IsBootMark mark.now }
    ensures { Takes (Some (move_of false (flat_map (λ w. w.changes) windows.items) (boot_mark_text mark.now))) (K.state keeper.old)
        (K.state keeper.new) result }
{
    let text = boot_text(alloc, mark)?;
    let mut batch = changes_of(alloc, windows)?;
    keeper.commit_taking(alloc, false, &mut batch, &text)
}

// The changes of windows, in order. No payload is copied.
fn changes_of(alloc: Global, windows: Vec<Window>) -> Result<Vec<Change>, NoMemory>
    ensures { IfOk result (λ changes. changes.items ≡ flat_map (λ w. w.changes) windows.items) }
{
    let mut changes = Vec::new(alloc);
    for window in windows {
        append_changes(window.into_changes(), &mut changes)?;
    }
    Ok(changes)
}

// Appends changes.
fn append_changes(changes: Vec<Change>, batch: &mut Vec<Change>) -> Result<(), NoMemory>
    ensures { IfOk result (λ done. batch.new.items ≡ batch.old.items ++ changes.items) }
{
    for change in changes {
        batch.push(change)?;
    }
    Ok(())
}
