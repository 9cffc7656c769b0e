ghost use Rattle.std.specs.Prelude.{◌≡◌, ◌≤◌, length, take, drop, MatchOption, ◌<◌};
ghost use Rattle.std.specs.Int.{w32, w64, from_be_bytes};
ghost use Rattle.event_codec.specs.Items.{has_right_scn, has_right_prev, event_stands, mark_stands, event_front, mark_front, front_of, since_of, open_in, Shows, has_room, is_in_range, IsEventNumbers, IsMarkNumbers};
ghost use Rattle.bus_types.specs.declared.limits.TheConstants.{MAX_WINDOW};

use crate::head::{DELETE, HEAD_SIZE, PUT};
use crate::mark::{MARK, MARK_SIZE};
use bus_types::{MAX_CHANGES, MAX_PAYLOAD, MAX_SCN, MAX_WINDOW};

/// What the next window of a stream follows.
#[derive(Clone, Copy, Debug, PartialEq, Eq)]
pub struct Follows {
    /// The SCN of the mark before it, or where no mark has come the SCN above which the stream begins.
    pub floor: u64,
    /// Whether a mark has come.
    pub started: bool,
}

/// The whole events of the window that has begun.
#[derive(Clone, Copy, Debug, PartialEq, Eq)]
pub struct Events {
    /// The SCN of the first event, where there is one.
    pub scn: Option<u64>,
    /// How many they are, at most 4,096.
    pub count: usize,
    /// The bytes that they take, at most 1,048,576.
    pub size: usize,
}

impl Events {
    /// A window of which nothing has come.
    pub const NONE: Events = Events {
        scn: None,
        count: 0,
        size: 0,
    };
}

/// What stands at the front of bytes in a stream of windows.
#[derive(Clone, Copy, Debug, PartialEq, Eq)]
pub enum Item {
    /// An item that isn't whole yet, and whose head can stand as far as it has come.
    Unfinished,
    /// A complete head that can't stand.
    Refused,
    /// A whole event that can stand: the SCN of its window, its row's source and key, and its bytes with its payload.
    Event {
        scn: u64,
        source: u16,
        key: u64,
        size: usize,
    },
    /// A whole mark that can stand: the SCN of its window, and the SCN of the window before it or 0. It takes 17 bytes.
    Mark {
        scn: u64,
        prev: u64,
    },
}

// Whether an item of this SCN can stand in a window whose first event has that one, if it has any.
fn has_right_scn(follows: Follows, first: Option<u64>, scn: u64) -> bool
    ensures { result ≡ has_right_scn (since_of follows) first scn }
{
    match first {
        None => follows.floor < scn,
        Some(first) => scn == first,
    }
}

// Whether a mark can have this SCN before its own.
fn has_right_prev(follows: Follows, prev: u64) -> bool
    ensures { result ≡ has_right_prev (since_of follows) prev }
{
    if follows.started {
        prev == follows.floor
    } else {
        prev <= follows.floor
    }
}

// Whether the window has room for an event with so long a payload, and for its mark.
fn has_room(events: Events, len: u32) -> bool
    requires size { events.size ≤ MAX_WINDOW }
    requires len { len ≤ 65536 }
    ensures { result ≡ has_room (open_in events) len }
{
    events.count < MAX_CHANGES
        && (events.size + HEAD_SIZE + len as usize + MARK_SIZE) as u64 <= MAX_WINDOW
}

// Whether an event's SCN and length are in their ranges.
fn is_in_range(kind: u8, scn: u64, len: u32) -> bool
    ensures { result ≡ is_in_range kind scn len }
{
    0 < scn && scn <= MAX_SCN && len as usize <= MAX_PAYLOAD && (kind == PUT || len == 0)
}

// Whether an event with these numbers can stand.
fn event_stands(follows: Follows, events: Events, kind: u8, scn: u64, len: u32) -> bool
    requires { events.size ≤ MAX_WINDOW }
    ensures { result ≡ event_stands (since_of follows) (open_in events) kind scn len }
{
    is_in_range(kind, scn, len) && has_right_scn(follows, events.scn, scn) && has_room(events, len)
}

// Whether a mark with these numbers can stand.
fn mark_stands(follows: Follows, events: Events, scn: u64, prev: u64) -> bool
    ensures { result ≡ mark_stands (since_of follows) (open_in events) scn prev }
{
    scn <= MAX_SCN
        && prev < scn
        && has_right_scn(follows, events.scn, scn)
        && has_right_prev(follows, prev)
}

// Of an event behind its kind: the source, the SCN, the key, the length of the payload, and the bytes from the payload on.
fn event_numbers(bytes: &[u8]) -> Option<(u16, u64, u64, u32, &[u8])>
    ensures { MatchOption result (length bytes.now < 22) (λ x. IsEventNumbers bytes.now x.0 x.1 x.2 x.3 x.4.now) }
{
    let (source, bytes) = bytes.split_first_chunk::<2>()?;
    let (scn, bytes) = bytes.split_first_chunk::<8>()?;
    let (key, bytes) = bytes.split_first_chunk::<8>()?;
    let (len, bytes) = bytes.split_first_chunk::<4>()?;
    Some((
        u16::from_be_bytes(*source),
        u64::from_be_bytes(*scn),
        u64::from_be_bytes(*key),
        u32::from_be_bytes(*len),
        bytes,
    ))
}

// Of a mark behind its kind: the SCN, and the SCN before it.
fn mark_numbers(bytes: &[u8]) -> Option<(u64, u64)>
    ensures { MatchOption result (length bytes.now < 16) (λ x. IsMarkNumbers bytes.now x.0 x.1) }
{
    let (scn, bytes) = bytes.split_first_chunk::<8>()?;
    let (prev, _) = bytes.split_first_chunk::<8>()?;
    Some((u64::from_be_bytes(*scn), u64::from_be_bytes(*prev)))
}

// What stands in front behind the kind of an event.
fn event_front(follows: Follows, events: Events, kind: u8, bytes: &[u8]) -> Item
    requires { events.size ≤ MAX_WINDOW }
    ensures { Shows result (event_front (since_of follows) (open_in events) kind bytes.now) }
{
    let Some((source, scn, key, len, payload)) = event_numbers(bytes) else {
        return Item::Unfinished;
    };
    if !event_stands(follows, events, kind, scn, len) {
        return Item::Refused;
    }
    let len = len as usize;
    if payload.len() < len {
        return Item::Unfinished;
    }
    Item::Event {
        scn,
        source,
        key,
        size: HEAD_SIZE + len,
    }
}

// What stands in front behind the kind of a mark.
fn mark_front(follows: Follows, events: Events, bytes: &[u8]) -> Item
    ensures { Shows result (mark_front (since_of follows) (open_in events) bytes.now) }
{
    let Some((scn, prev)) = mark_numbers(bytes) else {
        return Item::Unfinished;
    };
    if !mark_stands(follows, events, scn, prev) {
        return Item::Refused;
    }
    Item::Mark { scn, prev }
}

/// What stands at the front of bytes, behind whole events of a window. An event can stand where its SCN is that of the
/// first event, or above the window before where it is the first one, and where the window has room for it and for its
/// mark; a mark can stand where its SCN is right in the same way, and the SCN before it is that of the mark before, or at
/// most the floor in the first one.
#[tactic(auto, unfolding(crate::specs::Items::front_of))]
pub fn item_front(follows: Follows, events: Events, bytes: &[u8]) -> Item
    requires { events.size ≤ MAX_WINDOW }
    ensures { Shows result (front_of (since_of follows) (open_in events) bytes.now) }
{
    match bytes {
        [] => Item::Unfinished,
        [MARK, rest @ ..] => mark_front(follows, events, rest),
        [PUT, rest @ ..] => event_front(follows, events, PUT, rest),
        [DELETE, rest @ ..] => event_front(follows, events, DELETE, rest),
        [_, ..] => Item::Refused,
    }
}
