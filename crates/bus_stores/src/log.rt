ghost use Rattle.std.specs.Prelude.{◌≡◌, ◌≤◌, ◌<◌, ◌++◌, ◌∷◌, [], List, IfSome, length, map, option_map};
ghost use Rattle.bus_types.specs.Window.{Span};
ghost use Rattle.bus_stores.specs.Log.{LogState, IsLog, AppendsWindow, ReadsNext, DropsWindows, Bounds, Weakens, at_rest, growing_to, dropping_to};

use bus_types::{NoMemory as OutOfMemory, Window};
use std::alloc::{AllocFailed, Global};

/// Why a log did not do what it was asked.
#[derive(Clone, Copy, Debug, PartialEq, Eq)]
pub enum LogFault {
    /// The log failed. It comes only where its count of faults rose. After an append or a drop the log is opened again.
    Failed,
    /// There is no room for the window. The log is as before.
    Full,
    /// Memory ran out. The log is as before; an append had found room for its window.
    NoMemory,
}

impl From<OutOfMemory> for LogFault {
    ghost use Rattle.std.specs.Prelude.{◌≡◌};
    ghost use Rattle.bus_stores.specs.declared.log.LogFault.TheVariants as faults;

    ghost from_gives = { λ _ e. e ≡ faults.NoMemory };

    fn from(_: OutOfMemory) -> Self {
        LogFault::NoMemory
    }
}

impl<T: Drop> From<AllocFailed<T>> for LogFault {
    ghost use Rattle.std.specs.Prelude.{◌≡◌};
    ghost use Rattle.bus_stores.specs.declared.log.LogFault.TheVariants as faults;

    ghost from_gives = { λ _ e. e ≡ faults.NoMemory };

    fn from(_: AllocFailed<T>) -> Self {
        LogFault::NoMemory
    }
}

/// The newest windows of a timeline: those with `floor < SCN <= high`, each following the one before. A new log has
/// neither, and both SCNs are 0.
///
/// A log may tell its windows, and its room: a limit of bytes, whether it is sound, so that no call fails, and whether a
/// drop drops every window that it may. What it tells it tells from then on. It always tells its two SCNs, which sizes find
/// no room, and how often it failed.
pub trait WindowLog {
    /// What it tells of itself.
    ghost state: { Self → LogState };

    /// A crash at each moment from one state to another leaves a log with the windows of this list between its ends, which
    /// lie within these bounds. A log that no crash can meet says nothing by it.
    ghost passes: { List Span → Bounds → Self → Self → Type 0 } = { λ _ _ _ _. Unit {0} };

    /// The SCN behind which its windows begin. A crash now leaves the windows that are told.
    fn floor(&self) -> u64
        ensures value { result ≡ (state self.now).floor }
        ensures log { IsLog (state self.now) }
        ensures crash { IfSome (state self.now).windows (λ ws. passes ws (at_rest (state self.now)) self.now self.now) };

    /// The SCN of its newest window, or its floor where it has none. A crash now leaves the windows that are told.
    fn high(&self) -> u64
        ensures value { result ≡ (state self.now).high }
        ensures log { IsLog (state self.now) }
        ensures crash { IfSome (state self.now).windows (λ ws. passes ws (at_rest (state self.now)) self.now self.now) };

    /// Whether there is no room for a window of so many bytes in full.
    fn is_full(&self, size: u64) -> bool
        ensures { result ≡ (state self.now).full size };

    /// Appends a window in full that follows the newest one. `Full` comes exactly where `is_full` says so of its size, and
    /// want of memory never in its place. A crash meanwhile leaves the windows that were told, with this one or without it.
    fn append(&mut self, alloc: Global, window: &Window) -> Result<(), LogFault>
        requires chained { window.now.prev ≡ (state self.old).high }
        requires full { 0 < length window.now.changes }
        ensures append { AppendsWindow window.now (state self.old) (state self.new) result }
        ensures crash { IfSome (state self.old).windows (λ ws. passes (ws ++ window.now ∷ [])
            (growing_to window.now.scn (state self.old)) self.old self.new) };

    /// A copy of the oldest window behind an SCN, and `None` exactly where there is none. A crash meanwhile leaves the
    /// windows that were told.
    fn next(&mut self, alloc: Global, scn: u64) -> Result<Option<Window>, LogFault>
        requires { (state self.old).floor ≤ scn }
        ensures next { ReadsNext scn (state self.old) (state self.new) result }
        ensures crash { IfSome (state self.old).windows (λ ws. passes ws (at_rest (state self.old)) self.old self.new) };

    /// Drops windows up to an SCN. It may keep some of them, and it keeps every window behind the SCN. A crash meanwhile
    /// leaves the windows that were told, or those behind a later floor up to that SCN.
    fn drop_through(&mut self, alloc: Global, scn: u64) -> Result<(), LogFault>
        ensures drops { DropsWindows scn (state self.old) (state self.new) result }
        ensures crash { IfSome (state self.old).windows (λ ws. passes ws (dropping_to scn (state self.old)) self.old self.new) };

    /// What a crash leaves of a list within bounds it leaves within wider ones, and of another list with the same windows
    /// there.
    ghost weakens: { (ws vs : List Span) (b c : Bounds) (old new : Self) → Weakens ws vs b c → passes ws b old new → passes vs c old new };

    /// What a crash leaves up to one state and from there on it leaves at all these moments.
    ghost passes_on: { (ws : List Span) (b : Bounds) (old now new : Self) → passes ws b old now → passes ws b now new → passes ws b old new };
}
