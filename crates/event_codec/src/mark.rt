ghost use Rattle.std.specs.Prelude.{◌≡◌, ◌+◌, ◌≤◌, ℕ, length, IfSome, IfNone};
ghost use Rattle.event_codec.specs.Bytes.{IsMark, mark_bytes, StandsAt, mark_size};
ghost use Rattle.event_codec.specs.Reading.{mark_front};

use crate::number::{tail, u64_at};
use bus_types::MAX_SCN;

/// The bytes of an end-of-period mark.
pub const MARK_SIZE: usize = 17;

// The kind of a mark.
pub(crate) const MARK: u8 = 3;

/// The bytes of the end-of-period mark of a window: its SCN, and the SCN of the window before it or 0.
pub fn mark_bytes(scn: u64, prev: u64) -> [u8; 17]
    ensures { result ≡ mark_bytes scn prev }
{
    let scn = scn.to_be_bytes();
    let prev = prev.to_be_bytes();
    [
        MARK, scn[0], scn[1], scn[2], scn[3], scn[4], scn[5], scn[6], scn[7], prev[0], prev[1],
        prev[2], prev[3], prev[4], prev[5], prev[6], prev[7],
    ]
}

// The mark that bytes begin with.
#[tactic(auto, unfolding(crate::specs::Reading::mark_front))]
pub(crate) fn front(bytes: &[u8]) -> Option<(u64, u64)>
    ensures value { result ≡ mark_front bytes.now }
    ensures long { IfSome result (λ _. 17 ≤ length bytes.now) }
{
    if bytes.len() < MARK_SIZE {
        return None;
    }
    if bytes[0] != MARK {
        return None;
    }
    let (scn, prev) = (u64_at(bytes, 1), u64_at(bytes, 9));
    if scn > MAX_SCN || prev >= scn {
        return None;
    }
    Some((scn, prev))
}

/// The SCN and the SCN before it of the end-of-period mark that begins at a place. `None` comes exactly where no mark
/// stands there whole.
pub fn mark_at(bytes: &[u8], place: usize) -> Option<(u64, u64)>
    ensures found { IfSome result (λ mark. IsMark mark.0 mark.1 × StandsAt bytes.now place (mark_bytes mark.0 mark.1) (place + mark_size)) }
    ensures none { IfNone result ((scn prev next : ℕ) → IsMark scn prev → StandsAt bytes.now place (mark_bytes scn prev) next → ⊥) }
{
    front(tail(bytes, place))
}
