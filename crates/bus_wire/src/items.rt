ghost use Rattle.std.specs.Prelude.{◌≡◌, ◌&&◌, ◌==◌, ◌⊎◌, if◌then◌else◌, nat_lt, false, List, ℕ, MatchOption, MatchResult};
ghost use Rattle.bus_types.specs.Rows.{is_after};
ghost use Rattle.event_codec.specs.View.{event_of, IsView};
ghost use Rattle.event_codec.specs.Parsing.{close_of, closing_in_front};
ghost use Rattle.bus_wire.specs.Wanted.{Wanted, is_scn_wanted, is_wanted, wanted_behind, can_end, ends, most_items, HoldsItems, ItemsStop};
ghost use Rattle.bus_wire.specs.Walk.{wanted_of, IsWalked, Stays, Walks, IsClosed};

use crate::fault::BadReply;
use bus_types::{Accepts, Cursor, Key, RowName};
use event_codec::{Close, EventView};
use partition_filter::Filter;

// The kind of an event that is a put, and those of the frames that close rows and changes.
const PUT: u8 = 1;

const ROWS: u8 = 4;

const CHANGES: u8 = 5;

// What an item that comes next may be: whether a delete, or only a put; of which SCNs; after which row; of which rows.
#[derive(Clone, Copy)]
pub(crate) struct Items<'a> {
    pub deletes: bool,
    pub least: u64,
    pub most: u64,
    pub cursor: Cursor,
    pub filter: &'a Filter,
}

// How far the items of a reply are read: what may come next, how many came, and the bytes behind them.
#[derive(Clone, Copy)]
struct Walk<'a> {
    items: Items<'a>,
    count: u32,
    rest: &'a [u8],
}

// Whether a row stands after a cursor.
fn is_after(cursor: &Cursor, name: &RowName) -> bool
    ensures { result ≡ is_after cursor.now name.now }
{
    match *cursor {
        Cursor::Start => true,
        Cursor::After { source, key } => RowName { source, key } < *name,
    }
}

impl<'a> Items<'a> {
    // Whether an item or the frame may have this SCN.
    fn wants_scn(&self, scn: u64) -> bool
        ensures { result ≡ is_scn_wanted (wanted_of self.now) scn }
    {
        self.least <= scn && scn <= self.most
    }

    // Whether an event may come next.
    fn wants(&self, event: &EventView) -> bool
        ensures { result ≡ is_wanted (wanted_of self.now) event.now.scn (event_of event.now).change }
    {
        let key = Key::Long(event.key);
        let name = RowName {
            source: event.source,
            key,
        };
        self.wants_scn(event.scn)
            && (self.deletes || event.kind == PUT)
            && self.filter.accepts(event.source, &key)
            && is_after(&self.cursor, &name)
    }

    // What may come behind an event.
    fn behind(&self, event: &EventView) -> Items<'a>
        ensures { wanted_of result ≡ wanted_behind (wanted_of self.now) event.now.scn (event_of event.now).change }
    {
        Items {
            deletes: self.deletes,
            least: event.scn,
            most: event.scn,
            cursor: Cursor::After {
                source: event.source,
                key: Key::Long(event.key),
            },
            filter: self.filter,
        }
    }

    // Whether a frame of this kind closes them.
    fn closes(&self, kind: u8) -> bool
        ensures { result ≡ (if◌then◌else◌ self.now.deletes 5 4 == kind) }
    {
        kind == if self.deletes { CHANGES } else { ROWS }
    }

    // Whether a closing frame may come behind so many items.
    fn ends_with(&self, count: u32, close: &Close) -> bool
        requires { (close.now.kind ≡ 4) ⊎ (close.now.kind ≡ 5) }
        ensures { result ≡ can_end (wanted_of self.now) count (close_of close.now) }
    {
        self.closes(close.kind) && self.wants_scn(close.scn) && (!close.more || count > 0)
    }
}

impl<'a> Walk<'a> {
    // Whether an event may come next.
    fn takes(&self, event: &EventView) -> bool
        ensures { result ≡ (nat_lt self.now.count most_items && is_wanted (wanted_of self.now.items) event.now.scn (event_of event.now).change) }
    {
        self.count < u32::MAX && self.items.wants(event)
    }

    // Behind the event that stands in front. None where none that may come does.
    fn advance(&self) -> Option<Walk<'a>>
        ensures { MatchOption result (Stays self.now) (λ next. (w : Wanted) (bytes : List ℕ) → IsWalked w bytes self.now
            → Walks w bytes self.now next) }
    {
        let (event, _own, rest) = EventView::split(self.rest)?;
        if !self.takes(&event) {
            return None;
        }
        Some(Walk {
            items: self.items.behind(&event),
            count: self.count + 1,
            rest,
        })
    }

    // The closing frame that stands in front, where it may, and the bytes behind it.
    fn close(&self) -> Option<(Close, &'a [u8])>
        ensures { MatchOption result (ends (wanted_of self.now.items) self.now.count (closing_in_front self.now.rest.now) ≡ false)
            (λ x. IsClosed self.now x.0 x.1.now) }
    {
        let (close, behind) = Close::split(self.rest)?;
        if !self.items.ends_with(self.count, &close) {
            return None;
        }
        Some((close, behind))
    }

    // What was read where no item may come: how many items, and the SCN and the flag of their closing frame.
    fn end(&self, wanted: &Items, bytes: &[u8]) -> Result<(u32, u64, bool), BadReply>
        requires walked { IsWalked (wanted_of wanted.now) bytes.now self.now }
        requires stays { Stays self.now }
        ensures { MatchResult result (λ found. HoldsItems (wanted_of wanted.now) bytes.now found.0 found.1 found.2)
            (λ fault. ItemsStop (wanted_of wanted.now) bytes.now fault.place) }
    {
        let Some((close, behind)) = self.close() else {
            return Err(BadReply {
                place: (bytes.len() - self.rest.len()) as u64,
            });
        };
        if !behind.is_empty() {
            return Err(BadReply {
                place: (bytes.len() - behind.len()) as u64,
            });
        }
        Ok((self.count, close.scn, close.more))
    }
}

// The number of items, and the SCN and the flag of their closing frame, where the bytes are items that may come one after
// the other and then the frame.
pub(crate) fn check_run(wanted: &Items, bytes: &[u8]) -> Result<(u32, u64, bool), BadReply>
    ensures { MatchResult result (λ found. HoldsItems (wanted_of wanted.now) bytes.now found.0 found.1 found.2)
        (λ fault. ItemsStop (wanted_of wanted.now) bytes.now fault.place) }
{
    let mut walk = Walk {
        items: *wanted,
        count: 0,
        rest: bytes,
    };
    while let Some(next) = walk.advance() {
        walk = next;
    }
    walk.end(wanted, bytes)
}
