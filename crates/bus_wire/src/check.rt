ghost use Rattle.std.specs.Prelude.{◌≡◌, MatchOption, MatchResult, IfOk, IfErr, ◌++◌, List, ℕ};
ghost use Rattle.event_codec.specs.Frames.{answer_bytes};
ghost use Rattle.event_codec.specs.declared.reply.Shape.{Shape};
ghost use Rattle.bus_wire.specs.Lawful.{IsLawful, IsFaultAt, IsAnswerTo, HasNoAnswer, StopsIn, EndsAt};
ghost use Rattle.bus_wire.specs.Lawful.Body.{WindowsOf, RowsOf, ChangesOf};
ghost use Rattle.bus_wire.specs.Shaped.{IsShaped};
ghost use Rattle.bus_wire.specs.Replies.{IsReply};
ghost use Rattle.bus_wire.specs.Run.{BeginsWith};

use crate::ask::Ask;
use crate::fault::BadReply;
use crate::items::{Items, check_run};
use crate::run::check_windows;
use bus_types::{Cursor, MAX_SCN};
use event_codec::{Answer, ReplyView, Shape, answer_at};
use partition_filter::Filter;

// The bytes of an answer.
const ANSWER_SIZE: usize = 9;

// The lawful answer that stands in front.
fn answer_in_front(ask: &Ask, bytes: &[u8]) -> Option<Answer>
    ensures { MatchOption result (HasNoAnswer ask.now bytes.now) (λ answer. BeginsWith ask.now answer bytes.now) }
{
    let answer = answer_at(bytes, 0)?;
    if !ask.is_answered_by(&answer) {
        return None;
    }
    Some(answer)
}

// Bytes that begin with a lawful answer.
fn check_answer(ask: &Ask, answer: Answer, bytes: &[u8]) -> Result<Shape, BadReply>
    requires { BeginsWith ask.now answer bytes.now }
    ensures { MatchResult result (λ shape. IsLawful ask.now bytes.now shape) (λ fault. IsFaultAt ask.now bytes.now fault.place) }
{
    if bytes.len() > ANSWER_SIZE {
        return Err(BadReply { place: 9 });
    }
    Ok(Shape::Only(answer))
}

// Bytes that are windows above a floor and up to a top.
fn windows_shape(floor: u64, top: u64, filter: &Filter, bytes: &[u8]) -> Result<Shape, BadReply>
    ensures { MatchResult result (λ shape. IsShaped (WindowsOf floor top filter.now) bytes.now shape)
        (λ fault. StopsIn (WindowsOf floor top filter.now) bytes.now fault.place) }
{
    let (count, last) = check_windows(floor, top, filter, bytes)?;
    Ok(Shape::Windows { count, last })
}

// Bytes that are rows from an SCN on, after a cursor.
fn rows_shape(start: u64, cursor: &Cursor, filter: &Filter, bytes: &[u8]) -> Result<Shape, BadReply>
    ensures { MatchResult result (λ shape. IsShaped (RowsOf start cursor.now filter.now) bytes.now shape)
        (λ fault. StopsIn (RowsOf start cursor.now filter.now) bytes.now fault.place) }
{
    let wanted = Items {
        deletes: false,
        least: start,
        most: MAX_SCN,
        cursor: *cursor,
        filter,
    };
    let (count, scn, more) = check_run(&wanted, bytes)?;
    Ok(Shape::Rows { count, scn, more })
}

// Bytes that are changes of an SCN, after a cursor.
fn changes_shape(
    target: u64,
    cursor: &Cursor,
    filter: &Filter,
    bytes: &[u8],
) -> Result<Shape, BadReply>
    ensures { MatchResult result (λ shape. IsShaped (ChangesOf target cursor.now filter.now) bytes.now shape)
        (λ fault. StopsIn (ChangesOf target cursor.now filter.now) bytes.now fault.place) }
{
    let wanted = Items {
        deletes: true,
        least: target,
        most: target,
        cursor: *cursor,
        filter,
    };
    let (count, _scn, more) = check_run(&wanted, bytes)?;
    Ok(Shape::Changes { count, more })
}

// Bytes that begin with no lawful answer.
fn check_items(ask: &Ask, bytes: &[u8]) -> Result<Shape, BadReply>
    ensures { MatchResult result (λ shape. IsLawful ask.now bytes.now shape) (λ fault. EndsAt ask.now bytes.now fault.place) }
{
    match ask {
        Ask::Stream { scn, filter, .. } => windows_shape(*scn, MAX_SCN, filter, bytes),
        Ask::Catchup {
            at,
            target,
            filter,
            ..
        } => windows_shape(*at, *target, filter, bytes),
        Ask::Scan {
            start,
            cursor,
            filter,
            ..
        } => rows_shape(*start, cursor, filter, bytes),
        Ask::Delta {
            target,
            cursor,
            filter,
            ..
        } => changes_shape(*target, cursor, filter, bytes),
        Ask::Start { .. } | Ask::Target { .. } => Err(BadReply { place: 0 }),
    }
}

/// What the body of a reply to an ask is. `BadReply` comes exactly where it is no lawful reply, with the place of the
/// first item that can't stand: where no whole item stands, where an item breaks a rule of the reply, or behind an answer,
/// a closing frame or the 32nd window. Where the bytes end too early, it is the place of the item that is missing or cut. It takes no
/// memory.
pub fn check_reply(ask: &Ask, bytes: &[u8]) -> Result<Shape, BadReply>
    ensures ok { IfOk result (λ shape. IsLawful ask.now bytes.now shape) }
    ensures place { IfErr result (λ fault. IsFaultAt ask.now bytes.now fault.place) }
    ensures unlawful { IfErr result (λ _. (shape : Shape) → IsLawful ask.now bytes.now shape → ⊥) }
{
    match answer_in_front(ask, bytes) {
        Some(answer) => check_answer(ask, answer, bytes),
        None => check_items(ask, bytes),
    }
}

/// The lawful reply to an ask that bytes are, read where it stands. `BadReply` comes exactly where [`check_reply`] says
/// so, with its place. It takes no memory.
pub fn read_reply<'a>(ask: &Ask, bytes: &'a [u8]) -> Result<ReplyView<'a>, BadReply>
    ensures ok { IfOk result (λ reply. IsReply ask.now bytes.now reply) }
    ensures place { IfErr result (λ fault. IsFaultAt ask.now bytes.now fault.place) }
    ensures unlawful { IfErr result (λ _. (shape : Shape) → IsLawful ask.now bytes.now shape → ⊥) }
{
    let shape = check_reply(ask, bytes)?;
    Ok(ReplyView::of(&shape, bytes))
}
