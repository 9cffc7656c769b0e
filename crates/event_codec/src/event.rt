ghost use Rattle.std.specs.Prelude.{◌≡◌, ◌+◌, ◌≤◌, ◌++◌, ℕ, length, IfSome, IfNone, IfOk, OnErr, MatchOption, Some, None, option_map};
ghost use Rattle.event_codec.specs.Bytes.{Event, IsEvent, event_bytes, StandsAt};

use crate::head::{HEAD_SIZE, Head, PUT};
use crate::number::tail;
use bus_types::{Change, Key, NoMemory, Payload, PayloadFault};
use std::alloc::Global;

/// An event where it stands in bytes.
#[derive(Clone, Copy, Debug)]
pub struct EventView<'a> {
    /// 1 for a put, 2 for a delete.
    pub kind: u8,
    /// The source of the row.
    pub source: u16,
    /// The SCN of the event's window, from 1 on.
    pub scn: u64,
    /// The key of the row.
    pub key: u64,
    /// The row's bytes, at most 65,536; none for a delete.
    pub payload: &'a [u8],
}

impl<'a> EventView<'a> {
    ghost use Rattle.event_codec.specs.View.{event_of, IsView};
    ghost use Rattle.event_codec.specs.Reading.{event_front};
    ghost use Rattle.event_codec.specs.Parts.{parts};
    ghost use Rattle.event_codec.specs.Parsing.{event_in_front};

    // The event that bytes begin with.
    #[tactic(auto, unfolding(crate::specs::Reading::event_front))]
    fn front(bytes: &'a [u8]) -> Option<EventView<'a>>
        ensures value { option_map parts result ≡ event_front bytes.now }
        ensures long { IfSome result (λ view. HEAD_SIZE + length view.payload.now ≤ length bytes.now) }
    {
        let head = Head::read(bytes)?;
        let rest = &bytes[HEAD_SIZE..];
        let len = head.len as usize;
        if rest.len() < len {
            return None;
        }
        Some(EventView {
            kind: head.kind,
            source: head.source,
            scn: head.scn,
            key: head.key,
            payload: &rest[..len],
        })
    }

    /// The event that bytes begin with, its own bytes, and those behind it. `None` comes exactly where no event stands
    /// there whole.
    pub fn split(bytes: &'a [u8]) -> Option<(EventView<'a>, &'a [u8], &'a [u8])>
        ensures found { MatchOption result (event_in_front bytes.now ≡ None) (λ x. event_in_front bytes.now ≡ Some (event_of x.0, x.2.now)) }
        ensures view { IfSome result (λ x. IsView x.0) }
        ensures own { IfSome result (λ x. x.1.now ≡ event_bytes (event_of x.0)) }
        ensures parts { IfSome result (λ x. bytes.now ≡ x.1.now ++ x.2.now) }
    {
        let view = EventView::front(bytes)?;
        let (own, behind) = bytes.split_at(HEAD_SIZE + view.payload.len());
        Some((view, own, behind))
    }

    /// The event that begins at a place, and the place after it. `None` comes exactly where no event stands there
    /// whole.
    pub fn at(bytes: &'a [u8], place: usize) -> Option<(EventView<'a>, usize)>
        ensures found { IfSome result (λ x. IsView x.0 × StandsAt bytes.now place (event_bytes (event_of x.0)) x.1) }
        ensures none { IfNone result ((event : Event) (next : ℕ) → IsEvent event → StandsAt bytes.now place (event_bytes event) next → ⊥) }
    {
        let view = EventView::front(tail(bytes, place))?;
        Some((view, place + HEAD_SIZE + view.payload.len()))
    }

    // What the event puts, if it is a put.
    fn put(&self, alloc: Global) -> Result<Option<Payload>, NoMemory>
        requires { IsView self.now }
        ensures ok { IfOk result (λ put. put ≡ (event_of self.now).change.put) }
        ensures err { OnErr result (self.now.kind ≡ 1) }
    {
        if self.kind != PUT {
            return Ok(None);
        }
        match Payload::new(alloc, self.payload) {
            Ok(payload) => Ok(Some(payload)),
            Err(PayloadFault::NoMemory) => Err(NoMemory),
            Err(PayloadFault::TooLong) => unreachable!(),
        }
    }

    /// The change that the event is, with a copy of its payload. It is asked for an event as [`EventView::at`] gives it.
    /// Want of memory is its only fault, and comes only where there is a payload to copy: never for a delete, and never
    /// because of the payload's length.
    pub fn change(&self, alloc: Global) -> Result<Change, NoMemory>
        requires event { IsView self.now }
        ensures ok { IfOk result (λ change. change ≡ (event_of self.now).change) }
        ensures err { OnErr result (self.now.kind ≡ 1) }
    {
        Ok(Change {
            source: self.source,
            key: Key::Long(self.key),
            put: self.put(alloc)?,
        })
    }
}
