ghost use Rattle.std.specs.Prelude.{◌≡◌, ◌≤◌, ◌<◌, ◌++◌, None, IfOk, IfSome, OnOk, OnErr};
ghost use Rattle.bus_types.specs.declared.limits.TheConstants.{MAX_SCN, MAX_WINDOW};
ghost use Rattle.bus_types.specs.Timeline.{windows_between};
ghost use Rattle.bus_types.specs.Cut.{cut, cuts, cut_size};
ghost use Rattle.event_codec.specs.Frames.{answer_number};
ghost use Rattle.event_codec.specs.Questions.Reply.{Only};
ghost use Rattle.partition_filter.specs.Selection.{test_of};
ghost use Rattle.snapshot_scan.specs.Chunk.{Appends};
ghost use Rattle.snapshot_scan.specs.Filling.{Extends, tail_of};
ghost use Rattle.bus_stores.specs.Log.{at_rest};
ghost use Rattle.bootstrap_core.specs.Replaying.{OnlyReadsLog, ReadsWithin, replayed, with_cut, with_window, IsReplay, replay_shape};

use bus_stores::{LogFault, WindowLog};
use bus_types::{NoMemory, Window};
use event_codec::{Answer, Shape, answer_bytes, write_filtered};
use partition_filter::Filter;
use std::alloc::Global;

/// The most windows that a reply has.
const MOST_WINDOWS: u32 = 32;

/// How far a replay has come: its windows so far, the SCN of the last one, or that at which it began, the bytes that are
/// left for windows, and the bytes of the next window, where those are more.
#[derive(Clone, Copy, Debug)]
pub(crate) struct Replay {
    pub(crate) count: u32,
    pub(crate) last: u64,
    pub(crate) room: u64,
    pub(crate) unfit: Option<u64>,
}

// The oldest window behind an SCN, where it isn't above another.
fn next_within<G: WindowLog>(
    alloc: Global,
    log: &mut G,
    scn: u64,
    upto: u64,
) -> Result<Option<Window>, LogFault>
    requires { (G.state log.old).floor ≤ scn }
    ensures reads { ReadsWithin scn upto (G.state log.old) (G.state log.new) result }
    ensures crash { IfSome (G.state log.old).windows (λ ws. G.passes ws (at_rest (G.state log.old)) log.old log.new) }
{
    let Some(window) = log.next(alloc, scn)? else {
        return Ok(None);
    };
    if window.scn() <= upto {
        Ok(Some(window))
    } else {
        Ok(None)
    }
}

// Appends what a filter leaves of a window, where that fits in so many bytes, and tells its size. It is written before its size
// is known, so that each change is tested once.
fn put_cut(
    alloc: Global,
    window: &Window,
    filter: &Filter,
    room: u64,
    reply: &mut Vec<u8>,
) -> Result<u64, NoMemory>
    ensures size { IfOk result (λ size. size ≡ cut_size (test_of filter.now) window.now) }
    ensures small { IfOk result (λ size. size ≤ MAX_WINDOW) }
    ensures put { OnOk result (reply.new.items ≡ with_cut room (cut (test_of filter.now) window.now) reply.old.items) }
    ensures err { OnErr result (reply.new.items ≡ reply.old.items) }
{
    let _whole = window.size();
    let before = reply.len();
    write_filtered(alloc, window, filter, reply)?;
    let size = (reply.len() - before) as u64;
    if size > room {
        reply.truncate(before);
    }
    Ok(size)
}

// Takes a window into a replay, where what a filter leaves of it fits.
fn take_window(
    alloc: Global,
    window: &Window,
    filter: &Filter,
    replay: &mut Replay,
    reply: &mut Vec<u8>,
) -> Result<(), NoMemory>
    requires few { replay.old.count < 32 }
    requires fits { replay.old.unfit ≡ None }
    ensures ok { OnOk result (replayed reply.new.items replay.new ≡
        with_window (replayed reply.old.items replay.old) (cut (test_of filter.now) window.now)) }
    ensures small { OnOk result (IfSome replay.new.unfit (λ size. size ≤ MAX_WINDOW)) }
    ensures err { OnErr result (reply.new.items ≡ reply.old.items) }
{
    let size = put_cut(alloc, window, filter, replay.room, reply)?;
    if size <= replay.room {
        replay.count += 1;
        replay.last = window.scn();
        replay.room -= size;
    } else {
        replay.unfit = Some(size);
    }
    Ok(())
}

/// Appends the longest run of a log's windows with `at` < SCN <= `target`, as a filter leaves them, that fits in so many bytes.
/// Each window is copied out of the log once, and none behind the first that doesn't fit. After a fault the output still begins
/// as before.
pub(crate) fn take_windows<G: WindowLog>(
    alloc: Global,
    log: &mut G,
    at: u64,
    target: u64,
    filter: &Filter,
    max: u32,
    reply: &mut Vec<u8>,
) -> Result<Replay, LogFault>
    requires { (G.state log.old).floor ≤ at }
    ensures reads { OnlyReadsLog (G.state log.old) (G.state log.new) result }
    ensures crash { IfSome (G.state log.old).windows (λ ws. G.passes ws (at_rest (G.state log.old)) log.old log.new) }
    ensures replays { IfOk result (λ r. IfSome (G.state log.old).windows (λ ws.
        IsReplay at max reply.old.items (cuts (test_of filter.now) (windows_between at target ws)) (replayed reply.new.items r))) }
    ensures front { Extends reply.old.items reply.new.items }
    ensures small { IfOk result (λ r. IfSome r.unfit (λ size. size ≤ MAX_WINDOW)) }
{
    let _rising = log.high();
    let mut replay = Replay {
        count: 0,
        last: at,
        room: u64::from(max),
        unfit: None,
    };
    for _taken in 0..MOST_WINDOWS {
        let Some(window) = next_within(alloc, log, replay.last, target)? else {
            return Ok(replay);
        };
        take_window(alloc, &window, filter, &mut replay, reply)?;
        if replay.unfit.is_some() {
            return Ok(replay);
        }
    }
    Ok(replay)
}

/// Appends an answer as a reply.
pub(crate) fn put_answer(answer: &Answer, reply: &mut Vec<u8>) -> Result<Shape, NoMemory>
    requires { answer_number answer.now ≤ MAX_SCN }
    ensures ok { IfOk result (λ shape. Appends (Only answer.now) shape reply.old.items reply.new.items) }
    ensures front { OnOk result (Extends reply.old.items reply.new.items) }
    ensures err { OnErr result (reply.new.items ≡ reply.old.items) }
{
    reply.extend_from_slice(&answer_bytes(answer))?;
    Ok(Shape::Only(*answer))
}

/// Ends a replay: tells its windows, or appends the answer that says why there is none.
pub(crate) fn end_replay(high: u64, replay: &Replay, reply: &mut Vec<u8>) -> Result<Shape, NoMemory>
    requires high { high ≤ MAX_SCN }
    requires small { IfSome replay.now.unfit (λ size. size ≤ MAX_WINDOW) }
    ensures told { IfOk result (λ shape. shape ≡ replay_shape high replay.now.count replay.now.last replay.now.unfit) }
    ensures bytes { IfOk result (λ shape. reply.new.items ≡ reply.old.items ++ tail_of shape) }
    ensures err { OnErr result (reply.new.items ≡ reply.old.items) }
{
    if replay.count > 0 {
        return Ok(Shape::Windows {
            count: replay.count,
            last: replay.last,
        });
    }
    match replay.unfit {
        Some(size) => put_answer(&Answer::TooSmall(size), reply),
        None => put_answer(&Answer::Behind(high), reply),
    }
}
