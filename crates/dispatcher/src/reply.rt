ghost use Rattle.std.specs.Prelude.{List};
ghost use Rattle.bus_types.specs.Causes.{HasCause};
ghost use Rattle.dispatcher.specs.Callbacks.{Callback, answer_calls, reply_calls, Describes, Dispatched};
ghost use Rattle.dispatcher.specs.Telling.{Makes};

use crate::consumer::{Consumer, Refused};
use crate::run::rows;
use crate::window::windows;
use event_codec::{Answer, ReplyView, Shape};

// Tells of an answer: of the start of a snapshot alone.
fn answer<C: Consumer>(consumer: &mut C, answer: &Answer) -> Result<(), Refused>
    ensures told { Makes result (answer_calls answer.now) (C.calls consumer.old) (C.calls consumer.new) }
    ensures cause { HasCause (C.refusals consumer.old) (C.refusals consumer.new) result }
{
    match *answer {
        Answer::StartSnapshot(scn) => consumer.on_clear(scn).or(Err(Refused { scn })),
        _ => Ok(()),
    }
}

// Tells of a reply up to the first refusal.
fn tell<C: Consumer>(consumer: &mut C, reply: &ReplyView<'_>) -> Result<(), Refused>
    ensures told { Makes result (reply_calls reply.now) (C.calls consumer.old) (C.calls consumer.new) }
    ensures cause { HasCause (C.refusals consumer.old) (C.refusals consumer.new) result }
{
    match reply {
        ReplyView::Windows(all) => windows(consumer, all),
        ReplyView::Rows { run, scn, .. } => rows(consumer, *scn, run),
        ReplyView::Changes { run, scn, .. } => rows(consumer, *scn, run),
        ReplyView::Only(only) => answer(consumer, only),
    }
}

/// Tells a consumer of a reply, in the order of its items: of each window its start, its events and its end; of a run of
/// rows or changes the same once, also where it has no item; of the start of a snapshot that all is to be cleared; of
/// any other answer nothing. A consumer that doesn't listen isn't called, and no item is read. `Refused` comes where the
/// consumer refused a callback: no callback of the reply was called after it, and the consumer was told to go back to
/// `floor`.
pub fn dispatch_reply<C: Consumer>(
    consumer: &mut C,
    reply: &ReplyView<'_>,
    floor: u64,
) -> Result<(), Refused>
    ensures told { Dispatched result (reply_calls reply.now) floor (C.calls consumer.old) (C.calls consumer.new) }
    ensures cause { HasCause (C.refusals consumer.old) (C.refusals consumer.new) result }
{
    if !consumer.listens() {
        return Ok(());
    }
    if let Err(refused) = tell(consumer, reply) {
        consumer.on_rollback(floor);
        return Err(refused);
    }
    Ok(())
}

/// Tells a consumer of a reply of that shape, as [`dispatch_reply`] does, in the order of its bytes. `Refused` comes where
/// the consumer refused a callback: no callback of the reply was called after it, and the consumer was told to go back to
/// `floor`.
pub fn dispatch<C: Consumer>(
    consumer: &mut C,
    shape: &Shape,
    bytes: &[u8],
    floor: u64,
) -> Result<(), Refused>
    requires { (callbacks : List Callback) × Describes shape.now bytes.now callbacks }
    ensures told { (callbacks : List Callback) → Describes shape.now bytes.now callbacks
        → Dispatched result callbacks floor (C.calls consumer.old) (C.calls consumer.new) }
    ensures cause { HasCause (C.refusals consumer.old) (C.refusals consumer.new) result }
{
    dispatch_reply(consumer, &ReplyView::of(shape, bytes), floor)
}
