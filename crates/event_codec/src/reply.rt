ghost use Rattle.std.specs.Prelude.{◌≡◌, List};
ghost use Rattle.event_codec.specs.Bytes.{Event};
ghost use Rattle.event_codec.specs.Frames.{Closing};
ghost use Rattle.event_codec.specs.Questions.{Reply};
ghost use Rattle.event_codec.specs.ReplyViews.{view_of, Spells, AreClosed};

use crate::answer::Answer;
use crate::close::CLOSING_SIZE;
use crate::lent::{Run, Windows};

/// What the body of a lawful reply is.
#[derive(Clone, Copy, Debug, PartialEq, Eq)]
pub enum Shape {
    /// So many whole windows, from 1 on, and the SCN of the last one.
    Windows { count: u32, last: u64 },
    /// So many rows, the SCN that they stand at, and whether a row is left.
    Rows { count: u32, scn: u64, more: bool },
    /// So many changes, and whether a change is left.
    Changes { count: u32, more: bool },
    /// An answer, and no item.
    Only(Answer),
}

/// What a relay served.
#[derive(Clone, Copy, Debug, PartialEq, Eq)]
pub enum Served {
    /// So many windows, from 1 on, the SCN of the last one, and the bytes that they take.
    Windows { count: u32, last: u64, bytes: u64 },
    /// The next window is evicted: the SCN of the newest evicted window.
    NotFound(u64),
    /// Nothing is new: the SCN of the newest published window, or 0.
    Empty(u64),
    /// The limit is too small for the next window: the bytes that it needs.
    TooSmall(u64),
}

/// A lawful reply where it stands in bytes: its parts are lent, and taken one by one. Rows and changes are events, which
/// carry the SCN.
#[derive(Debug, Drop)]
pub enum ReplyView<'a> {
    /// Whole windows, from 1 on.
    Windows(Windows<'a>),
    /// Rows, the SCN that they stand at, and whether a row is left.
    Rows { run: Run<'a>, scn: u64, more: bool },
    /// Changes, the SCN that they come to, and whether a change is left.
    Changes { run: Run<'a>, scn: u64, more: bool },
    /// An answer, and no item.
    Only(Answer),
}

// The events before a closing frame.
fn run_of(bytes: &[u8]) -> Run<'_>
    requires { (events : List Event) × (closing : Closing) × AreClosed events closing bytes.now }
    ensures { (events : List Event) (closing : Closing) → AreClosed events closing bytes.now → result ≡ events }
{
    Run::of(&bytes[..bytes.len() - CLOSING_SIZE])
}

// The SCN in the closing frame at the end.
fn closing_scn(bytes: &[u8]) -> u64
    requires { (events : List Event) × (closing : Closing) × AreClosed events closing bytes.now }
    ensures { (events : List Event) (closing : Closing) → AreClosed events closing bytes.now → result ≡ closing.scn }
{
    let [a, b, c, d, e, f, g, h, _more] = *bytes.last_chunk::<9>().unwrap();
    u64::from_be_bytes([a, b, c, d, e, f, g, h])
}

impl<'a> ReplyView<'a> {
    /// The reply of that shape that bytes spell. No item of it is read yet.
    pub fn of(shape: &Shape, bytes: &'a [u8]) -> ReplyView<'a>
        requires { (reply : Reply) × Spells shape.now bytes.now reply }
        ensures { (reply : Reply) → Spells shape.now bytes.now reply → result ≡ view_of reply }
    {
        match *shape {
            Shape::Windows { .. } => ReplyView::Windows(Windows::of(bytes)),
            Shape::Rows { scn, more, .. } => ReplyView::Rows {
                run: run_of(bytes),
                scn,
                more,
            },
            Shape::Changes { more, .. } => ReplyView::Changes {
                run: run_of(bytes),
                scn: closing_scn(bytes),
                more,
            },
            Shape::Only(answer) => ReplyView::Only(answer),
        }
    }
}
