ghost use Rattle.std.specs.Prelude.{◌≡◌, ◌≤◌, List, ℕ, length, take};
ghost use Rattle.bus_types.specs.Window.{Span};
ghost use Rattle.event_codec.specs.Parsing.{AreWindows, HaveWindows};
ghost use Rattle.event_codec.specs.Streams.{windows_bytes};
ghost use Rattle.bootstrap_core.specs.Logging.{AreWindowsBehind, IsFirstMark};

use event_codec::{MARK_SIZE, Windows};

// The place of the mark of the first of these windows, and the SCN before that window. It takes no memory.
pub(crate) fn first_mark(bytes: &[u8]) -> (usize, u64)
    requires { (high : ℕ) × (ws : List Span) × AreWindowsBehind high bytes.now ws }
    ensures mark { (high : ℕ) (ws : List Span) → AreWindowsBehind high bytes.now ws → IsFirstMark ws result.0 result.1 }
    ensures within { result.0 ≤ length bytes.now }
{
    let Some(window) = Windows::of(bytes).next() else {
        unreachable!()
    };
    (window.bytes().len() - MARK_SIZE, window.prev())
}

// The bytes of the first so many of these windows, or of those there are.
pub(crate) fn first_windows(bytes: &[u8], count: u32) -> &[u8]
    requires { HaveWindows bytes.now }
    ensures { (ws : List Span) → AreWindows ws bytes.now → result.now ≡ windows_bytes (take count ws) }
{
    Windows::of(bytes).first(count as usize).bytes()
}
