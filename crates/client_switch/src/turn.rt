ghost use Rattle.std.specs.Prelude.{◌≡◌, true, false, [], IfOk};
ghost use Rattle.checkpoint.specs.Mark.{IsMark};
ghost use Rattle.bus_stores.specs.Taking.{Takes};
ghost use Rattle.event_codec.specs.Chunks.{cursor_after};
ghost use Rattle.event_codec.specs.Questions.{Reply};
ghost use Rattle.client_switch.specs.Moves.{answer_turn, target_turn, replayed, turn, stay, go};
ghost use Rattle.client_switch.specs.Client.{IsReply, commit_of};
ghost use Rattle.client_switch.specs.Turning.{wish_of, turn_in, text_of, CanStand, HoldsComing, CanAnswer, mark_after_windows, mark_after_rows, mark_after_changes, mark_after};

use crate::changes::reply_changes;
use crate::wish::Wish;
use bus_stores::{Commit, Keeper, StoreFault, take};
use bus_types::{Change, Cursor, MarkText, NoMemory};
use checkpoint::Mark;
use event_codec::{Answer, Shape};
use std::alloc::Global;
use std::mem;

/// What a reply makes of a client: its mark, whether that and the rest are committed, whether all rows are cleared
/// first, the changes that are then made in order, and the wish.
#[derive(Debug, Drop)]
pub(crate) struct Turn {
    pub mark: Mark,
    pub commits: bool,
    pub clear: bool,
    pub batch: Vec<Change>,
    pub wish: Wish,
}

// Nothing is committed.
fn stay(alloc: Global, mark: &Mark, wish: Wish) -> Turn
    ensures { turn_in result ≡ stay mark.now (wish_of wish) }
{
    Turn {
        mark: *mark,
        commits: false,
        clear: false,
        batch: Vec::new(alloc),
        wish,
    }
}

// One commit, after which nothing is wished.
fn go(mark: Mark, clear: bool, batch: Vec<Change>) -> Turn
    ensures { turn_in result ≡ go mark clear batch.items }
{
    Turn {
        mark,
        commits: true,
        clear,
        batch,
        wish: Wish::Nothing,
    }
}

// What a delta of the rows up to an SCN makes.
fn delta(alloc: Global, since: u64, target: u64) -> Turn
    ensures { turn_in result ≡ go (Mark.Delta since target Cursor.Start) false [] }
{
    let mark = Mark::Delta {
        since,
        target,
        cursor: Cursor::Start,
    };
    go(mark, false, Vec::new(alloc))
}

// What a snapshot that begins at an SCN makes.
fn snapshot(alloc: Global, since: u64, start: u64) -> Turn
    ensures { turn_in result ≡ go (Mark.Snapshot since start start Cursor.Start) true [] }
{
    let mark = Mark::Snapshot {
        since,
        start,
        top: start,
        cursor: Cursor::Start,
    };
    go(mark, true, Vec::new(alloc))
}

// What a target makes of a scan that is at its end: where nothing is to be replayed, the scan is a table.
fn target(alloc: Global, mark: &Mark, target: u64) -> Turn
    ensures { turn_in result ≡ target_turn mark.now target }
{
    let Mark::Scanned { since, start, .. } = *mark else {
        return stay(alloc, mark, Wish::Nothing);
    };
    if target == start {
        return go(Mark::Online { scn: target }, false, Vec::new(alloc));
    }
    let mark = Mark::Catchup {
        since,
        start,
        target,
        at: start,
    };
    go(mark, false, Vec::new(alloc))
}

// What an answer makes.
fn answer_turn(alloc: Global, mark: &Mark, answer: &Answer) -> Turn
    requires mark { IsMark mark.now }
    requires can_come { CanAnswer mark.now answer.now }
    ensures turn { turn_in result ≡ answer_turn mark.now answer.now }
    ensures stands { CanStand result.mark (wish_of result.wish) }
{
    match *answer {
        Answer::NotFound(_) => stay(alloc, mark, Wish::Start),
        Answer::Empty(_) | Answer::TooSmall(_) | Answer::Behind(_) => {
            stay(alloc, mark, Wish::Nothing)
        }
        Answer::LogGone(_) => stay(alloc, mark, Wish::Fresh),
        Answer::StartDelta(high) => delta(alloc, mark.floor_of(), high),
        Answer::StartSnapshot(applied) => snapshot(alloc, mark.floor_of(), applied),
        Answer::Target(end) => target(alloc, mark, end),
    }
}

// The cursor after a change.
fn cursor_behind(change: &Change) -> Cursor
    ensures { result ≡ Cursor.After change.now.source change.now.key }
{
    Cursor::After {
        source: change.source,
        key: change.key,
    }
}

// The cursor after the last of these changes, or the one given.
fn cursor_after(cursor: &Cursor, changes: &[Change]) -> Cursor
    ensures { result ≡ cursor_after cursor.now changes.now }
{
    match changes.last() {
        None => *cursor,
        Some(change) => cursor_behind(change),
    }
}

// The mark of a replay that has come to an SCN.
fn replayed(since: u64, start: u64, target: u64, at: u64) -> Mark
    ensures { result ≡ replayed since start target at }
{
    if at == target {
        return Mark::Online { scn: target };
    }
    Mark::Catchup {
        since,
        start,
        target,
        at,
    }
}

// The mark behind windows up to an SCN.
fn mark_after_windows(mark: &Mark, last: u64) -> Mark
    ensures { result ≡ mark_after_windows mark.now last }
{
    match *mark {
        Mark::Online { .. } => Mark::Online { scn: last },
        Mark::Catchup {
            since,
            start,
            target,
            ..
        } => replayed(since, start, target, last),
        _ => *mark,
    }
}

// The mark behind rows at an SCN.
fn mark_after_rows(mark: &Mark, changes: &[Change], scn: u64, more: bool) -> Mark
    ensures { result ≡ mark_after_rows mark.now changes.now scn more }
{
    let Mark::Snapshot {
        since,
        start,
        top,
        cursor,
    } = *mark
    else {
        return *mark;
    };
    let top = top.max(scn);
    if !more {
        return Mark::Scanned { since, start, top };
    }
    Mark::Snapshot {
        since,
        start,
        top,
        cursor: cursor_after(&cursor, changes),
    }
}

// The mark behind changes.
fn mark_after_changes(mark: &Mark, changes: &[Change], more: bool) -> Mark
    ensures { result ≡ mark_after_changes mark.now changes.now more }
{
    let Mark::Delta {
        since,
        target,
        cursor,
    } = *mark
    else {
        return *mark;
    };
    if !more {
        return Mark::Online { scn: target };
    }
    Mark::Delta {
        since,
        target,
        cursor: cursor_after(&cursor, changes),
    }
}

// The mark behind a reply with these changes.
fn mark_after(mark: &Mark, shape: &Shape, changes: &[Change]) -> Mark
    ensures { result ≡ mark_after mark.now shape.now changes.now }
{
    match *shape {
        Shape::Windows { last, .. } => mark_after_windows(mark, last),
        Shape::Rows { scn, more, .. } => mark_after_rows(mark, changes, scn, more),
        Shape::Changes { more, .. } => mark_after_changes(mark, changes, more),
        Shape::Only(_) => *mark,
    }
}

/// What a lawful reply of this shape makes of a client with this mark. It takes memory for the changes alone, and for
/// them the room of the vector given, which is without room afterwards. An answer, which has no changes, leaves it.
pub(crate) fn turn_of(
    alloc: Global,
    mark: &Mark,
    shape: &Shape,
    reply: &[u8],
    room: &mut Vec<Change>,
) -> Result<Turn, NoMemory>
    requires mark { IsMark mark.now }
    requires can_come { HoldsComing mark.now shape.now reply.now }
    ensures turn { IfOk result (λ t. (r : Reply) → IsReply shape.now reply.now r → turn_in t ≡ turn mark.now r) }
    ensures stands { IfOk result (λ t. CanStand t.mark (wish_of t.wish)) }
{
    if let Shape::Only(answer) = shape {
        return Ok(answer_turn(alloc, mark, answer));
    }
    let room = mem::replace(room, Vec::new(alloc));
    let changes = reply_changes(alloc, shape, reply, room)?;
    let next = mark_after(mark, shape, &changes);
    Ok(go(next, false, changes))
}

// The most changes for which room is kept, so that who once took a large reply doesn't hold its memory from then on.
const MOST_KEPT: usize = 4096;

// Keeps the vector of a commit, without its changes, where it has more room than the one at hand, and not too much.
fn keep_room(room: &mut Vec<Change>, batch: Option<Vec<Change>>) {
    let Some(mut batch) = batch else {
        return;
    };
    let space = batch.capacity();
    if space > room.capacity() && space <= MOST_KEPT {
        batch.clear();
        *room = batch;
    }
}

impl Turn {
    /// Makes its one commit, where it has one, and answers the text of the mark that was set. The room of its changes is
    /// then kept for those of a later turn.
    pub fn commit<K: Keeper>(
        self,
        alloc: Global,
        keeper: &mut K,
        room: &mut Vec<Change>,
    ) -> Result<Option<MarkText>, StoreFault>
        requires { IsMark self.mark }
        ensures takes { Takes (commit_of (turn_in self)) (K.state keeper.old) (K.state keeper.new) result }
        ensures text { IfOk result (λ text. text ≡ text_of (turn_in self)) }
    {
        if !self.commits {
            return Ok(None);
        }
        let mark = self.mark.write(alloc)?;
        let commit = Commit {
            clear: self.clear,
            batch: self.batch,
            mark: &mark,
        };
        let batch = take(alloc, keeper, Some(commit))?;
        keep_room(room, batch);
        Ok(Some(mark))
    }
}
