ghost use Rattle.std.specs.Prelude.{◌≡◌, ◌≤◌, ◌↔◌, ◌++◌, ◌∷◌, [], true, false, List, length, take, slice_get, Some, Err, IfOk, IfErr, IfSome, IfNone, IsErrOf, ℕ};
ghost use Rattle.bus_types.specs.Window.{Span};
ghost use Rattle.bus_types.specs.Timeline.{IsTimeline, IsTimelineFrom, Follows, end_from};
ghost use Rattle.bus_stores.specs.Log.{growing_to};
ghost use Rattle.bus_wire.specs.Lawful.{IsAnswerTo, IsLawful, IsFaultAt};
ghost use Rattle.bootstrap_core.specs.Boot.{told, Stands};
ghost use Rattle.bootstrap_core.specs.Logging.{log_ask, TakesLog, IsAnswered, IsRelayReply, AreWindowsBehind, AreBrought, IsChained, FindsRoom, LogsEach, LogsWindow};

use crate::boot::Boot;
use crate::fault::TakeLog;
use crate::first::{first_mark, first_windows};
use bus_stores::{Keeper, LogFault, WindowLog};
use bus_types::Window;
use bus_wire::{Ask, check_reply};
use event_codec::{Answer, Shape};
use partition_filter::Filter;
use std::alloc::Global;
use window_stream::{SplitFault, Splitter};

/// The most bytes of a reply that is asked of the relay.
const MOST_BYTES: u32 = 16_777_216;

/// The bytes of a window's mark.
const MARK_SIZE: u64 = 17;

impl<G: WindowLog, K: Keeper> Boot<G, K> {
    /// Takes the relay's reply to who asked for the windows behind `high`, with all rows, in at most 16,777,216 bytes, and
    /// appends its first `n` windows to the log, or those there are. It answers `high` after that. Only those are built.
    ///
    /// `Halted` comes exactly after a fault of log or keeper. `BadReply` comes exactly where the bytes are no lawful reply, or
    /// where their first window doesn't follow the log's newest one, with the place of that window's mark. `Gap` comes exactly
    /// where the reply says that windows were evicted. `Full` comes exactly where the log has no room for the next window;
    /// those before it are kept, as they are where memory runs out, which comes only where the next window found room.
    /// `LogFailed` comes only where the log's count rose; the bootstrap is then halted. A crash meanwhile leaves the log's
    /// windows that were told, and of those that this call appends the oldest, however many.
    pub fn take_log(&mut self, alloc: Global, reply: &[u8], n: u32) -> Result<u64, TakeLog>
        ensures halted { IsErrOf result TakeLog.Halted ↔ (self.old.halted ≡ true) }
        ensures takes { TakesLog result n reply.now (told G.state K.state self.old) (told G.state K.state self.new) }
        ensures faults { (G.state self.old.log).faults ≤ (G.state self.new.log).faults }
        ensures room { (G.state self.new.log).room ≡ (G.state self.old.log).room }
        ensures keeper { self.new.keeper ≡ self.old.keeper }
        ensures crash { self.old.halted ≡ false → IfSome (G.state self.old.log).windows
            (λ held. (brought : List Span) × AreBrought n reply.now (G.state self.old.log).high brought ×
            G.passes (held ++ brought) (growing_to (end_from (G.state self.old.log).high brought) (G.state self.old.log)) self.old.log self.new.log) }

        // One that stands for a timeline still does after a reply that is true of it, unless it is halted.
        ensures stands { (ws : List Span) → IsTimeline ws → Stands ws (told G.state K.state self.old)
            → IsRelayReply ws (G.state self.old.log).high reply.now →
            self.new.halted ≡ false → Stands ws (told G.state K.state self.new) }
    {
        if self.halted {
            return Err(TakeLog::Halted);
        }
        let high = self.log.high();
        match shape_of(high, reply)? {
            Shape::Windows { .. } => self.log_windows(alloc, high, reply, n),
            Shape::Only(answer) => answered(high, &answer),
            Shape::Rows { .. } | Shape::Changes { .. } => unreachable!(),
        }
    }

    // Appends the first n windows of a reply.
    fn log_windows(
        &mut self,
        alloc: Global,
        high: u64,
        reply: &[u8],
        n: u32,
    ) -> Result<u64, TakeLog>
        requires high { high ≡ (G.state self.old.log).high }
        requires windows { (ws : List Span) × AreWindowsBehind high reply.now ws }
        ensures takes { TakesLog result n reply.now (told G.state K.state self.old) (told G.state K.state self.new) }
        ensures faults { (G.state self.old.log).faults ≤ (G.state self.new.log).faults }
        ensures room { (G.state self.new.log).room ≡ (G.state self.old.log).room }
        ensures keeper { self.new.keeper ≡ self.old.keeper }
        ensures runs { IsErrOf result TakeLog.Halted → ⊥ }
        ensures crash { IfSome (G.state self.old.log).windows
            (λ held. (brought : List Span) × AreBrought n reply.now (G.state self.old.log).high brought ×
            G.passes (held ++ brought) (growing_to (end_from (G.state self.old.log).high brought) (G.state self.old.log)) self.old.log self.new.log) }
    {
        let _rests = self.log.high();
        let windows = self.windows_to_log(alloc, high, reply, n)?;
        self.log_each(alloc, &windows)
    }

    // The first n windows of a reply, where nothing speaks against the first of them.
    fn windows_to_log(
        &self,
        alloc: Global,
        high: u64,
        reply: &[u8],
        n: u32,
    ) -> Result<Vec<Window>, TakeLog>
        requires high { high ≡ (G.state self.now.log).high }
        requires windows { (ws : List Span) × AreWindowsBehind high reply.now ws }
        ensures windows { IfOk result (λ windows. (ws : List Span) → AreWindowsBehind high reply.now ws → (windows.items ≡ take n ws)
            × IsChained high ws) }
        ensures fault { IfErr result (λ fault. TakesLog (Err fault) n reply.now (told G.state K.state self.now) (told G.state K.state self.now)) }
        ensures runs { IsErrOf result TakeLog.Halted → ⊥ }
    {
        match self.first_fault(high, reply, n) {
            Some(fault) => Err(fault),
            None => split(alloc, high, reply, n),
        }
    }

    // What speaks against the first window of a reply: it doesn't follow the log's newest one, or it is to be appended and
    // finds no room. This is seen before memory is taken.
    fn first_fault(&self, high: u64, reply: &[u8], n: u32) -> Option<TakeLog>
        requires high { high ≡ (G.state self.now.log).high }
        requires windows { (ws : List Span) × AreWindowsBehind high reply.now ws }
        ensures none { IfNone result ((ws : List Span) → AreWindowsBehind high reply.now ws → IsChained high ws
            × FindsRoom (G.state self.now.log) (slice_get (take n ws) 0)) }
        ensures fault { IfSome result (λ fault. TakesLog (Err fault) n reply.now (told G.state K.state self.now) (told G.state K.state self.now)) }
        ensures runs { result ≡ Some TakeLog.Halted → ⊥ }
    {
        let (place, prev) = first_mark(reply);
        if prev != high {
            return Some(TakeLog::BadReply {
                place: place as u64,
            });
        }
        if n == 0 {
            return None;
        }
        let need = place as u64 + MARK_SIZE;
        if self.log.is_full(need) {
            return Some(TakeLog::Full { need });
        }
        None
    }

    // Appends windows.
    fn log_each(&mut self, alloc: Global, windows: &[Window]) -> Result<u64, TakeLog>
        requires { IsTimelineFrom (G.state self.old.log).high windows.now }
        ensures logs { LogsEach result windows.now (told G.state K.state self.old) (told G.state K.state self.new) }
        ensures high { IfOk result (λ high. high ≡ (G.state self.new.log).high) }
        ensures faults { (G.state self.old.log).faults ≤ (G.state self.new.log).faults }
        ensures room { (G.state self.new.log).room ≡ (G.state self.old.log).room }
        ensures keeper { self.new.keeper ≡ self.old.keeper }
        ensures crash { IfSome (G.state self.old.log).windows
            (λ held. G.passes (held ++ windows.now) (growing_to (end_from (G.state self.old.log).high windows.now)
            (G.state self.old.log)) self.old.log self.new.log) }
    {
        let _rests = self.log.high();
        for window in windows {
            self.log_window(alloc, window)?;
        }
        Ok(self.log.high())
    }

    // Appends a window.
    fn log_window(&mut self, alloc: Global, window: &Window) -> Result<(), TakeLog>
        requires { Follows (G.state self.old.log).high window.now }
        ensures logs { LogsWindow result window.now (told G.state K.state self.old) (told G.state K.state self.new) }
        ensures faults { (G.state self.old.log).faults ≤ (G.state self.new.log).faults }
        ensures room { (G.state self.new.log).room ≡ (G.state self.old.log).room }
        ensures keeper { self.new.keeper ≡ self.old.keeper }
        ensures crash { IfSome (G.state self.old.log).windows
            (λ held. G.passes (held ++ window.now ∷ []) (growing_to window.now.scn (G.state self.old.log)) self.old.log self.new.log) }
    {
        let _room = self.log.high();
        match self.log.append(alloc, window) {
            Ok(()) => Ok(()),
            Err(LogFault::Full) => Err(TakeLog::Full {
                need: window.size(),
            }),
            Err(LogFault::NoMemory) => Err(TakeLog::NoMemory),
            Err(LogFault::Failed) => {
                self.halted = true;
                Err(TakeLog::LogFailed)
            }
        }
    }
}

// What the reply to who asked for the windows behind an SCN is.
fn shape_of(high: u64, reply: &[u8]) -> Result<Shape, TakeLog>
    ensures lawful { IfOk result (IsLawful (log_ask high) reply.now) }
    ensures fault { IfErr result (λ fault. (place : ℕ) × (fault ≡ TakeLog.BadReply place) × IsFaultAt (log_ask high) reply.now place) }
{
    let ask = Ask::Stream {
        scn: high,
        filter: Filter::everything(),
        max: MOST_BYTES,
    };
    match check_reply(&ask, reply) {
        Ok(shape) => Ok(shape),
        Err(fault) => Err(TakeLog::BadReply { place: fault.place }),
    }
}

// What a lawful answer to who asked for the windows behind an SCN makes.
fn answered(high: u64, answer: &Answer) -> Result<u64, TakeLog>
    requires { IsAnswerTo (log_ask high) answer.now }
    ensures { IsAnswered result high answer.now }
{
    match *answer {
        Answer::NotFound(floor) => Err(TakeLog::Gap { floor }),
        _ => Ok(high),
    }
}

// The first n windows of a reply, behind an SCN. No other is built.
fn split(alloc: Global, high: u64, reply: &[u8], n: u32) -> Result<Vec<Window>, TakeLog>
    requires { (ws : List Span) × AreWindowsBehind high reply.now ws }
    ensures windows { IfOk result (λ windows. (ws : List Span) → AreWindowsBehind high reply.now ws → windows.items ≡ take n ws) }
    ensures fault { IfErr result (λ fault. fault ≡ TakeLog.NoMemory) }
{
    let mut windows = Vec::new(alloc);
    match Splitter::new(alloc, high).feed(alloc, first_windows(reply, n), &mut windows) {
        Ok(()) => Ok(windows),
        Err(SplitFault::NoMemory) => Err(TakeLog::NoMemory),
        Err(SplitFault::Bad { .. }) => unreachable!(),
    }
}
