ghost use Rattle.std.specs.Prelude.{◌≡◌, ◌≤◌, ◌<◌, ◌↔◌, ◌++◌, [], true, false, List, is_some, nat_lt, IfOk, IfErr, IfSome, OnOk, OnErr, IsErrOf, ℕ};
ghost use Rattle.bus_types.specs.declared.limits.TheConstants.{MAX_SCN};
ghost use Rattle.bus_types.specs.Causes.{Rose};
ghost use Rattle.bus_types.specs.Table.{table};
ghost use Rattle.bus_types.specs.Timeline.{IsTimeline, windows_between};
ghost use Rattle.bus_types.specs.Cut.{cuts};
ghost use Rattle.bus_types.specs.Change.{Test};
ghost use Rattle.bus_types.specs.Window.{Span};
ghost use Rattle.event_codec.specs.Chunks.{chunk_of};
ghost use Rattle.event_codec.specs.Questions.{Question};
ghost use Rattle.event_codec.specs.Questions.Reply.{Changes};
ghost use Rattle.partition_filter.specs.Selection.{test_of};
ghost use Rattle.bus_wire.specs.Asks.{question_of, test_in, AsksBootstrap};
ghost use Rattle.bus_wire.specs.True.{Boot as Numbers, boot_reply, replay_of};
ghost use Rattle.bus_stores.specs.Keeper.{BothTold, SameStore};
ghost use Rattle.bus_stores.specs.Log.{SameLog, at_rest};
ghost use Rattle.snapshot_applier.specs.BootMark.{IsBootMark};
ghost use Rattle.snapshot_scan.specs.Chunk.{Appends};
ghost use Rattle.snapshot_scan.specs.Filling.{Extends};
ghost use Rattle.bootstrap_core.specs.Boot.{told, numbers, Stands, HoldsStretch};
ghost use Rattle.bootstrap_core.specs.Moving.{TellsWindows};
ghost use Rattle.bootstrap_core.specs.Answering.{IsTold, AsksLog};
ghost use Rattle.bootstrap_core.specs.Replaying.{OnlyReadsLog};

use crate::boot::Boot;
use crate::replaying::{end_replay, put_answer, take_windows};
use bus_stores::{BootFault, Keeper, LogFault, WindowLog};
use bus_types::{Cursor, NoMemory};
use bus_wire::Ask;
use delta_consolidate::delta;
use event_codec::{Answer, Shape, close_bytes};
use partition_filter::Filter;
use snapshot_applier::BootMark;
use snapshot_scan::chunk;
use std::alloc::Global;

/// The bytes of the frame that closes changes.
const FRAME: u32 = 10;

/// The kind of the frame that closes changes.
const CHANGES: u8 = 5;

// Whether the log is not sure to have the windows behind an SCN.
fn is_gone(mark: &BootMark, scn: u64) -> bool
    ensures { result ≡ nat_lt scn mark.now.base }
{
    scn < mark.base
}

// Appends the next rows of the table that a scan asks for, or why there are none.
fn scan<K: Keeper>(
    alloc: Global,
    keeper: &mut K,
    mark: &BootMark,
    start: u64,
    cursor: &Cursor,
    filter: &Filter,
    max: u32,
    reply: &mut Vec<u8>,
) -> Result<Shape, BootFault>
    requires { IsBootMark mark.now }
    ensures reply { (ws : List Span) (high : ℕ) → is_some (K.state keeper.new).content ≡ true →
        IfSome (K.state keeper.new).content (λ c. c.rows ≡ table ws mark.now.applied) →
        IfOk result (λ shape. Appends (boot_reply ws (test_of filter.now) (record { base = mark.now.base; applied = mark.now.applied; high = high })
        (Question.Scan start cursor.now max)) shape reply.old.items reply.new.items) }
    ensures front { OnOk result (Extends reply.old.items reply.new.items) }
    ensures err { OnErr result (reply.new.items ≡ reply.old.items) }
    ensures same { SameStore (K.state keeper.old) (K.state keeper.new) }
    ensures calls { BothTold (λ a b. a ≤ b) (K.state keeper.old).calls (K.state keeper.new).calls }
    ensures faults { (K.state keeper.old).faults ≤ (K.state keeper.new).faults }
    ensures store { IsErrOf result BootFault.StoreFailed → Rose (K.state keeper.old).faults (K.state keeper.new).faults }
    ensures sound { IsErrOf result BootFault.StoreFailed → IfSome (K.state keeper.old).stops (λ s. s.sound ≡ false) }
    ensures never_log { IsErrOf result BootFault.LogFailed → ⊥ }
    ensures never_halted { IsErrOf result BootFault.Halted → ⊥ }
{
    if is_gone(mark, start) {
        return Ok(put_answer(&Answer::LogGone(mark.base), reply)?);
    }
    if mark.applied < start {
        return Ok(put_answer(&Answer::Behind(mark.applied), reply)?);
    }
    chunk(alloc, keeper, mark.applied, cursor, filter, max, reply)
}

// Appends the windows of a replay, or why there are none. After a fault the output still begins as before.
fn append_replay<G: WindowLog>(
    alloc: Global,
    log: &mut G,
    at: u64,
    target: u64,
    filter: &Filter,
    max: u32,
    reply: &mut Vec<u8>,
) -> Result<Shape, LogFault>
    requires low { (G.state log.old).floor ≤ at }
    ensures reads { OnlyReadsLog (G.state log.old) (G.state log.new) result }
    ensures crash { IfSome (G.state log.old).windows (λ ws. G.passes ws (at_rest (G.state log.old)) log.old log.new) }
    ensures reply { IfOk result (λ shape. IfSome (G.state log.old).windows (λ held.
        Appends (replay_of (G.state log.old).high max (cuts (test_of filter.now) (windows_between at target held)))
        shape reply.old.items reply.new.items)) }
    ensures front { Extends reply.old.items reply.new.items }
{
    let high = log.high();
    let replay = take_windows(alloc, log, at, target, filter, max, reply)?;
    let shape = end_replay(high, &replay, reply)?;
    Ok(shape)
}

// Appends the windows of a replay that a log has, or why there are none.
fn replay_log<G: WindowLog>(
    alloc: Global,
    log: &mut G,
    at: u64,
    target: u64,
    filter: &Filter,
    max: u32,
    reply: &mut Vec<u8>,
) -> Result<Shape, BootFault>
    requires low { (G.state log.old).floor ≤ at }
    ensures reply { IfOk result (λ shape. IfSome (G.state log.old).windows (λ held.
        Appends (replay_of (G.state log.old).high max (cuts (test_of filter.now) (windows_between at target held)))
        shape reply.old.items reply.new.items)) }
    ensures front { OnOk result (Extends reply.old.items reply.new.items) }
    ensures err { OnErr result (reply.new.items ≡ reply.old.items) }
    ensures same { SameLog (G.state log.old) (G.state log.new) }
    ensures crash { IfSome (G.state log.old).windows (λ ws. G.passes ws (at_rest (G.state log.old)) log.old log.new) }
    ensures faults { (G.state log.old).faults ≤ (G.state log.new).faults }
    ensures failed { IsErrOf result BootFault.LogFailed → Rose (G.state log.old).faults (G.state log.new).faults }
    ensures sound { IsErrOf result BootFault.LogFailed → IfSome (G.state log.old).room (λ room. room.sound ≡ false) }
    ensures never_store { IsErrOf result BootFault.StoreFailed → ⊥ }
    ensures never_halted { IsErrOf result BootFault.Halted → ⊥ }
{
    let before = reply.len();
    match append_replay(alloc, log, at, target, filter, max, reply) {
        Ok(shape) => Ok(shape),
        Err(LogFault::Failed) => {
            reply.truncate(before);
            Err(BootFault::LogFailed)
        }
        Err(LogFault::Full) => {
            reply.truncate(before);
            Err(BootFault::LogFailed)
        }
        Err(LogFault::NoMemory) => {
            reply.truncate(before);
            Err(BootFault::NoMemory)
        }
    }
}

// Appends the next windows of a replay up to a target, or why there are none.
fn catch_up<G: WindowLog>(
    alloc: Global,
    log: &mut G,
    mark: &BootMark,
    at: u64,
    target: u64,
    filter: &Filter,
    max: u32,
    reply: &mut Vec<u8>,
) -> Result<Shape, BootFault>
    requires lawful { IsBootMark mark.now }
    requires low { (G.state log.old).floor ≤ mark.now.base }
    ensures reply { (ws : List Span) → HoldsStretch ws (G.state log.old) → TellsWindows (G.state log.old) →
        IfOk result (λ shape. Appends (boot_reply ws (test_of filter.now) (numbers (G.state log.old) mark.now) (Question.Catchup at target max))
        shape reply.old.items reply.new.items) }
    ensures front { OnOk result (Extends reply.old.items reply.new.items) }
    ensures err { OnErr result (reply.new.items ≡ reply.old.items) }
    ensures same { SameLog (G.state log.old) (G.state log.new) }
    ensures crash { IfSome (G.state log.old).windows (λ ws. G.passes ws (at_rest (G.state log.old)) log.old log.new) }
    ensures faults { (G.state log.old).faults ≤ (G.state log.new).faults }
    ensures failed { IsErrOf result BootFault.LogFailed → Rose (G.state log.old).faults (G.state log.new).faults }
    ensures sound { IsErrOf result BootFault.LogFailed → IfSome (G.state log.old).room (λ room. room.sound ≡ false) }
    ensures never_store { IsErrOf result BootFault.StoreFailed → ⊥ }
    ensures never_halted { IsErrOf result BootFault.Halted → ⊥ }
{
    let high = log.high();
    if is_gone(mark, at) {
        return Ok(put_answer(&Answer::LogGone(mark.base), reply)?);
    }
    if high < target {
        return Ok(put_answer(&Answer::Behind(high), reply)?);
    }
    replay_log(alloc, log, at, target, filter, max, reply)
}

// Appends a chunk of no changes.
fn put_no_changes(scn: u64, max: u32, reply: &mut Vec<u8>) -> Result<Shape, NoMemory>
    requires { scn ≤ MAX_SCN }
    ensures ok { IfOk result (λ shape. Appends (chunk_of (λ cs more. Changes cs scn more) max []) shape reply.old.items reply.new.items) }
    ensures front { OnOk result (Extends reply.old.items reply.new.items) }
    ensures err { OnErr result (reply.new.items ≡ reply.old.items) }
{
    if max < FRAME {
        return put_answer(&Answer::TooSmall(u64::from(FRAME)), reply);
    }
    reply.extend_from_slice(&close_bytes(CHANGES, scn, false))?;
    Ok(Shape::Changes {
        count: 0,
        more: false,
    })
}

// Appends the next last changes of a stretch of windows, or why there are none. Where the stretch ends before it begins, nothing
// changed in it.
fn consolidate<G: WindowLog>(
    alloc: Global,
    log: &mut G,
    mark: &BootMark,
    since: u64,
    target: u64,
    cursor: &Cursor,
    filter: &Filter,
    max: u32,
    reply: &mut Vec<u8>,
) -> Result<Shape, BootFault>
    requires lawful { IsBootMark mark.now }
    requires low { (G.state log.old).floor ≤ mark.now.base }
    ensures reply { (ws : List Span) → HoldsStretch ws (G.state log.old) → TellsWindows (G.state log.old) →
        IfOk result (λ shape. Appends (boot_reply ws (test_of filter.now) (numbers (G.state log.old) mark.now)
        (Question.Delta since target cursor.now max))
        shape reply.old.items reply.new.items) }
    ensures front { OnOk result (Extends reply.old.items reply.new.items) }
    ensures err { OnErr result (reply.new.items ≡ reply.old.items) }
    ensures same { SameLog (G.state log.old) (G.state log.new) }
    ensures crash { IfSome (G.state log.old).windows (λ ws. G.passes ws (at_rest (G.state log.old)) log.old log.new) }
    ensures faults { (G.state log.old).faults ≤ (G.state log.new).faults }
    ensures failed { IsErrOf result BootFault.LogFailed → Rose (G.state log.old).faults (G.state log.new).faults }
    ensures sound { IsErrOf result BootFault.LogFailed → IfSome (G.state log.old).room (λ room. room.sound ≡ false) }
    ensures never_store { IsErrOf result BootFault.StoreFailed → ⊥ }
    ensures never_halted { IsErrOf result BootFault.Halted → ⊥ }
{
    let high = log.high();
    if is_gone(mark, since) {
        return Ok(put_answer(&Answer::LogGone(mark.base), reply)?);
    }
    if high < target {
        return Ok(put_answer(&Answer::Behind(high), reply)?);
    }
    if target <= since {
        return Ok(put_no_changes(target, max, reply)?);
    }
    delta(alloc, log, since, target, cursor, filter, max, reply)
}

// Appends what a log answers to a catch-up or to an ask for a delta.
fn answer_by_log<G: WindowLog>(
    alloc: Global,
    log: &mut G,
    mark: &BootMark,
    ask: &Ask,
    reply: &mut Vec<u8>,
) -> Result<Shape, BootFault>
    requires log { AsksLog ask.now }
    requires lawful { IsBootMark mark.now }
    requires low { (G.state log.old).floor ≤ mark.now.base }
    ensures reply { (ws : List Span) → HoldsStretch ws (G.state log.old) → TellsWindows (G.state log.old) →
        IfOk result (λ shape. Appends (boot_reply ws (test_in ask.now) (numbers (G.state log.old) mark.now) (question_of ask.now))
        shape reply.old.items reply.new.items) }
    ensures front { OnOk result (Extends reply.old.items reply.new.items) }
    ensures err { OnErr result (reply.new.items ≡ reply.old.items) }
    ensures same { SameLog (G.state log.old) (G.state log.new) }
    ensures crash { IfSome (G.state log.old).windows (λ ws. G.passes ws (at_rest (G.state log.old)) log.old log.new) }
    ensures faults { (G.state log.old).faults ≤ (G.state log.new).faults }
    ensures failed { IsErrOf result BootFault.LogFailed → Rose (G.state log.old).faults (G.state log.new).faults }
    ensures sound { IsErrOf result BootFault.LogFailed → IfSome (G.state log.old).room (λ room. room.sound ≡ false) }
    ensures never_store { IsErrOf result BootFault.StoreFailed → ⊥ }
    ensures never_halted { IsErrOf result BootFault.Halted → ⊥ }
{
    match ask {
        Ask::Catchup {
            at,
            target,
            filter,
            max,
        } => catch_up(alloc, log, mark, *at, *target, filter, *max, reply),
        Ask::Delta {
            since,
            target,
            cursor,
            filter,
            max,
        } => consolidate(
            alloc, log, mark, *since, *target, cursor, filter, *max, reply,
        ),
        _ => unreachable!(),
    }
}

impl<G: WindowLog, K: Keeper> Boot<G, K> {
    /// Appends what a bootstrap answers to an ask that isn't for a stream, and tells its shape.
    ///
    /// To Start and Target it is what `start` and `target` answer. To a scan it is the next chunk of the table's rows, to a
    /// delta that of the last changes between its two SCNs, and to a catch-up the longest run of at most 32 windows right after
    /// `at`, up to `target`, as its filter leaves them, in at most `max` bytes: each is copied out of the log once and written
    /// once, and none is read behind the first that doesn't fit. `TooSmall` tells what the smallest such reply needs, where that
    /// is more than `max` bytes. Before these comes `LogGone(base)`, where what was asked begins below `base`, and then `Behind`:
    /// with `applied` to a scan whose start is above it, with `high` to who asks for a target above it, and to a catch-up over no
    /// window.
    ///
    /// `Halted` comes exactly after a fault of log or keeper in `take_log`, `apply` or `trim`. `LogFailed` and `StoreFailed` come
    /// only where that one's count of faults rose, and halt nothing here. After a fault the reply is as before. But for the counts,
    /// log, keeper and boot mark always are. A crash meanwhile leaves the log's windows that were told.
    pub fn answer(
        &mut self,
        alloc: Global,
        ask: &Ask,
        reply: &mut Vec<u8>,
    ) -> Result<Shape, BootFault>
        requires bootstrap { AsksBootstrap ask.now }

        // Over every timeline for which it stands, where log and keeper tell their content, the reply is the one that is defined.
        ensures reply { (ws : List Span) → IsTimeline ws → Stands ws (told G.state K.state self.old) → IsTold (told G.state K.state self.new) →
            IfOk result (λ shape. Appends (boot_reply ws (test_in ask.now) (numbers (G.state self.old.log) self.old.mark) (question_of ask.now))
            shape reply.old.items reply.new.items) }
        ensures stands { (ws : List Span) → Stands ws (told G.state K.state self.old) → Stands ws (told G.state K.state self.new) }
        ensures front { OnOk result (Extends reply.old.items reply.new.items) }
        ensures err { OnErr result (reply.new.items ≡ reply.old.items) }
        ensures halted { IsErrOf result BootFault.Halted ↔ (self.old.halted ≡ true) }
        ensures mark { self.new.mark ≡ self.old.mark }
        ensures runs { self.new.halted ≡ self.old.halted }
        ensures same_log { SameLog (G.state self.old.log) (G.state self.new.log) }
        ensures same_store { SameStore (K.state self.old.keeper) (K.state self.new.keeper) }
        ensures log_faults { (G.state self.old.log).faults ≤ (G.state self.new.log).faults }
        ensures faults { (K.state self.old.keeper).faults ≤ (K.state self.new.keeper).faults }
        ensures calls { BothTold (λ a b. a ≤ b) (K.state self.old.keeper).calls (K.state self.new.keeper).calls }
        ensures log { IsErrOf result BootFault.LogFailed → Rose (G.state self.old.log).faults (G.state self.new.log).faults }
        ensures store { IsErrOf result BootFault.StoreFailed → Rose (K.state self.old.keeper).faults (K.state self.new.keeper).faults }
        ensures sound_log { IsErrOf result BootFault.LogFailed → IfSome (G.state self.old.log).room (λ room. room.sound ≡ false) }
        ensures sound_store { IsErrOf result BootFault.StoreFailed → IfSome (K.state self.old.keeper).stops (λ s. s.sound ≡ false) }
        ensures crash { self.old.halted ≡ false → IfSome (G.state self.old.log).windows
            (λ ws. G.passes ws (at_rest (G.state self.old.log)) self.old.log self.new.log) }
    {
        if self.halted {
            return Err(BootFault::Halted);
        }
        let _rests = self.log.high();
        let mark = self.mark;
        match ask {
            Ask::Stream { .. } => unreachable!(),
            Ask::Start { since, fresh } => self.put_start(*since, *fresh, reply),
            Ask::Target { start, atleast } => self.put_target(*start, *atleast, reply),
            Ask::Scan {
                start,
                cursor,
                filter,
                max,
            } => scan(
                alloc,
                &mut self.keeper,
                &mark,
                *start,
                cursor,
                filter,
                *max,
                reply,
            ),
            Ask::Catchup { .. } => answer_by_log(alloc, &mut self.log, &mark, ask, reply),
            Ask::Delta { .. } => answer_by_log(alloc, &mut self.log, &mark, ask, reply),
        }
    }

    // Appends how a consumer is to start.
    fn put_start(&self, since: u64, fresh: bool, reply: &mut Vec<u8>) -> Result<Shape, BootFault>
        ensures reply { (ws : List Span) (test : Test) →
            IfOk result (λ shape. Appends (boot_reply ws test (numbers (G.state self.now.log) self.now.mark) (Question.Start since fresh))
            shape reply.old.items reply.new.items) }
        ensures front { OnOk result (Extends reply.old.items reply.new.items) }
        ensures err { OnErr result (reply.new.items ≡ reply.old.items) }
        ensures memory { IfErr result (λ fault. fault ≡ BootFault.NoMemory) }
    {
        let answer = self.start(since, fresh);
        Ok(put_answer(&answer, reply)?)
    }

    // Appends up to where a scan is to be replayed.
    fn put_target(&self, start: u64, atleast: u64, reply: &mut Vec<u8>) -> Result<Shape, BootFault>
        ensures reply { (ws : List Span) (test : Test) →
            IfOk result (λ shape. Appends (boot_reply ws test (numbers (G.state self.now.log) self.now.mark) (Question.Target start atleast))
            shape reply.old.items reply.new.items) }
        ensures front { OnOk result (Extends reply.old.items reply.new.items) }
        ensures err { OnErr result (reply.new.items ≡ reply.old.items) }
        ensures memory { IfErr result (λ fault. fault ≡ BootFault.NoMemory) }
    {
        let answer = self.target(start, atleast);
        Ok(put_answer(&answer, reply)?)
    }
}
