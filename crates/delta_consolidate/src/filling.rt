ghost use Rattle.std.specs.Prelude.{◌≡◌, ◌+◌, ◌-◌, ◌<◌, ◌≤◌, ◌^◌, ◌++◌, length, None, IfSome, IfOk, OnOk, is_some, if◌then◌else◌};
ghost use Rattle.bus_types.specs.declared.limits.TheConstants.{MAX_SCN};
ghost use Rattle.event_codec.specs.Bytes.{event_bytes};
ghost use Rattle.delta_consolidate.specs.Filling.{Extends, filled, with_item, with_next, with_items, needed, shape_at, tail_of};
ghost use Rattle.delta_consolidate.specs.Latest.{changes_of};

use crate::latest::Latest;
use bus_types::{Change, NoMemory, Payload, RowName};
use event_codec::{Answer, Shape, answer_bytes, close_bytes, event_head};

/// The bytes of the frame that closes a chunk.
const FRAME: u64 = 10;

/// The kind of the frame that closes a chunk of changes.
const CHANGES: u8 = 5;

/// How far a chunk has come: its changes so far, the bytes that are left for changes, and the size of the first one that
/// does not fit in them, where one was met.
#[derive(Clone, Copy, Debug)]
pub(crate) struct Filling {
    pub(crate) count: u32,
    pub(crate) room: u64,
    pub(crate) unfit: Option<u32>,
}

impl Filling {
    /// Nothing yet, in so many bytes with the closing frame.
    pub(crate) fn new(max: u32) -> Filling
        ensures count { result.count ≡ 0 }
        ensures room { result.room ≡ max - 10 }
        ensures unfit { result.unfit ≡ None }
    {
        Filling {
            count: 0,
            room: u64::from(max).saturating_sub(FRAME),
            unfit: None,
        }
    }
}

// Appends a change as an event. After want of memory the output still begins as before.
fn append_event(scn: u64, change: &Change, reply: &mut Vec<u8>) -> Result<(), NoMemory>
    ensures ok { OnOk result (reply.new.items ≡ reply.old.items ++ event_bytes (record { scn = scn; change = change.now })) }
    ensures front { Extends reply.old.items reply.new.items }
{
    reply.extend_from_slice(&event_head(scn, change))?;
    if let Some(payload) = &change.put {
        reply.extend_from_slice(payload.bytes())?;
    }
    Ok(())
}

// Takes an item into a chunk where it fits.
fn put_item(
    scn: u64,
    change: &Change,
    filling: &mut Filling,
    reply: &mut Vec<u8>,
) -> Result<(), NoMemory>
    requires { filling.old.count + filling.old.room < 2 ^ 32 }
    ensures ok { OnOk result (filled reply.new.items filling.new ≡ with_item scn (filled reply.old.items filling.old) change.now) }
    ensures small { filling.new.count + filling.new.room ≤ filling.old.count + filling.old.room }
    ensures front { Extends reply.old.items reply.new.items }
{
    let size = change.size();
    if size <= filling.room {
        append_event(scn, change, reply)?;
        filling.count += 1;
        filling.room -= size;
    } else {
        filling.unfit = Some(size as u32);
    }
    Ok(())
}

// Takes what a row's last change puts into a chunk where it fits, unless an earlier change has not.
fn put_entry(
    scn: u64,
    name: RowName,
    put: Option<Payload>,
    filling: &mut Filling,
    reply: &mut Vec<u8>,
) -> Result<(), NoMemory>
    requires { filling.old.count + filling.old.room < 2 ^ 32 }
    ensures ok { OnOk result (filled reply.new.items filling.new
        ≡ with_next scn (filled reply.old.items filling.old) (record { source = name.source; key = name.key; put = put })) }
    ensures small { filling.new.count + filling.new.room ≤ filling.old.count + filling.old.room }
    ensures front { Extends reply.old.items reply.new.items }
{
    if filling.unfit.is_some() {
        return Ok(());
    }
    let change = Change {
        source: name.source,
        key: name.key,
        put,
    };
    put_item(scn, &change, filling, reply)
}

/// Takes the last changes of rows into a chunk, in order of name, as long as they fit. After want of memory the output
/// still begins as before.
pub(crate) fn put_latest(
    scn: u64,
    latest: Latest,
    filling: &mut Filling,
    reply: &mut Vec<u8>,
) -> Result<(), NoMemory>
    requires { filling.old.count + filling.old.room < 2 ^ 32 }
    ensures ok { OnOk result (filled reply.new.items filling.new ≡ with_items scn (filled reply.old.items filling.old) (changes_of latest.entries)) }
    ensures front { Extends reply.old.items reply.new.items }
{
    for (name, put) in latest {
        put_entry(scn, name, put, filling, reply)?;
    }
    Ok(())
}

// The bytes that the smallest reply needs, where those are more than there are.
fn needed(max: u32, filling: &Filling) -> Option<u64>
    ensures value { result ≡ needed max filling.now.count filling.now.unfit }
    ensures small { IfSome result (λ need. need ≤ MAX_SCN) }
{
    if filling.count > 0 {
        return None;
    }
    match filling.unfit {
        Some(size) => Some(u64::from(size) + FRAME),
        None if u64::from(max) < FRAME => Some(FRAME),
        None => None,
    }
}

/// Closes a chunk: appends the frame behind its changes, or the answer that tells what the smallest reply needs, and tells
/// the reply's shape. After want of memory the output still begins as before.
pub(crate) fn close(
    scn: u64,
    max: u32,
    filling: &Filling,
    reply: &mut Vec<u8>,
) -> Result<Shape, NoMemory>
    requires { scn ≤ MAX_SCN }
    ensures told { IfOk result (λ shape. shape ≡ shape_at max filling.now.count filling.now.unfit) }
    ensures bytes { OnOk result (reply.new.items ≡ reply.old.items ++ tail_of scn (shape_at max filling.now.count filling.now.unfit)) }
    ensures front { Extends reply.old.items reply.new.items }
{
    if let Some(need) = needed(max, filling) {
        let answer = Answer::TooSmall(need);
        reply.extend_from_slice(&answer_bytes(&answer))?;
        return Ok(Shape::Only(answer));
    }
    let more = filling.unfit.is_some();
    reply.extend_from_slice(&close_bytes(CHANGES, scn, more))?;
    Ok(Shape::Changes {
        count: filling.count,
        more,
    })
}
