ghost use Rattle.std.specs.Prelude.{◌≡◌, ◌+◌, ◌≤◌, ◌++◌, true, List, ℕ, length, drop};
ghost use Rattle.event_codec.specs.Bytes.{Event, IsEvent, event_bytes};
ghost use Rattle.byte_ring.specs.Parts.{WindowAt};

use crate::halves::Halves;
use crate::kept::Slot;
use bus_types::{Accepts, Key, MAX_SCN};
use event_codec::MARK_SIZE;

/// The bytes of an event before its payload: kind, source, SCN, key and length.
const HEAD_SIZE: usize = 23;

/// How many bytes the event takes that begins at a place.
#[inline(always)]
pub(crate) fn event_size(bytes: &Halves<'_>, at: usize) -> usize
    requires { at + 23 ≤ length bytes.now }
    ensures { (e : Event) (rest : List ℕ) → drop at bytes.now ≡ event_bytes e ++ rest → IsEvent e → result ≡ length (event_bytes e) }
{
    let _len = bytes.len();
    HEAD_SIZE + bytes.word(at + 19) as usize
}

/// As [`event_size`], where one is left, and else 0.
#[inline(always)]
pub(crate) fn size_left(bytes: &Halves<'_>, at: usize, left: bool) -> usize
    requires { left ≡ true → at + 23 ≤ length bytes.now }
    ensures { left ≡ true → (e : Event) (rest : List ℕ) → drop at bytes.now ≡ event_bytes e ++ rest → IsEvent e → result ≡ length (event_bytes e) }
{
    if left { event_size(bytes, at) } else { 0 }
}

/// Whether a filter accepts the event that begins at a place.
#[inline(always)]
pub(crate) fn accepts_event<F: Accepts>(bytes: &Halves<'_>, at: usize, filter: &F) -> bool
    requires { at + 23 ≤ length bytes.now }
    ensures { (e : Event) (rest : List ℕ) → drop at bytes.now ≡ event_bytes e ++ rest → IsEvent e → result ≡ F.test filter.now e.change.source e.change.key }
{
    let _len = bytes.len();
    filter.accepts(bytes.short(at + 1), &Key::Long(bytes.long(at + 11)))
}

/// The SCN of a slot's window, which stands at a place, by its mark.
#[inline(always)]
pub(crate) fn scn_at(bytes: &Halves<'_>, at: usize, slot: &Slot) -> u64
    requires { WindowAt bytes.now at slot.now }
    ensures value { result ≡ slot.now.window.value.scn }
    ensures range { result ≤ MAX_SCN }
{
    let _within = bytes.len();
    let mark = at + slot.size as usize - MARK_SIZE;
    bytes.long(mark + 1)
}
