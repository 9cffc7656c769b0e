ghost use Rattle.std.specs.Prelude.{◌≡◌, ◌+◌, ◌<◌, ◌≤◌, ◌^◌, ℕ, List, [], None, length, drop};
ghost use Rattle.bus_types.specs.Window.{Span};
ghost use Rattle.window_stream.specs.Stream.{Split, new_split, Feeds, FeedsGood, ReadsAs, Carries};

use crate::scan::{Stop, scan_all};
use bus_types::Window;
use event_codec::{Events, Follows};
use std::alloc::Global;
use std::marker::Model;

/// Why a piece was not taken.
#[derive(Clone, Copy, Debug, PartialEq, Eq)]
pub enum SplitFault {
    /// A complete head in the stream can't stand where it is.
    Bad {
        /// The place of the item's first byte, counted from the stream's first byte.
        place: u64,
    },
    /// Memory ran out.
    NoMemory,
}

/// A stream of windows of which some has come. Contracts see what the next window must follow, the bytes of the windows
/// that were given, the bytes behind them, and where the stream is bad, if it is.
#[derive(Debug, Drop)]
pub struct Splitter {
    alloc: Global,
    follows: Follows,
    // The whole events at the front of `rest`. They are not scanned again.
    events: Events,
    // How many bytes the windows that were given take.
    given: u64,
    // The bytes behind those windows.
    rest: Vec<u8>,
    bad: Option<u64>,
}

impl Model for Splitter {
    ghost use Rattle.window_stream.specs.Stream.{Split};

    ghost Value = { Split };

    ghost use Rattle.event_codec.specs.Items.{since_of, open_in};
    ghost use Rattle.window_stream.specs.Scan.{IsScanned};

    ghost view = { λ s. record { since = since_of s.follows; given = s.given; rest = s.rest.items; bad = s.bad } };

    ghost invariant = { λ s. IsScanned s.bad (since_of s.follows) (open_in s.events) s.rest.items };
}

// Drops the first bytes.
fn drop_front(bytes: &mut Vec<u8>, count: usize)
    requires { count ≤ length bytes.old.items }
    ensures { bytes.new.items ≡ drop count bytes.old.items }
{
    bytes.drain(..count);
}

impl Splitter {
    /// A stream of which nothing has come, and whose first window is the first one above this SCN.
    pub fn new(alloc: Global, floor: u64) -> Splitter
        ensures value { result ≡ new_split floor }
        ensures reads { ReadsAs floor [] [] result }
    {
        let follows = Follows {
            floor,
            started: false,
        };
        Splitter {
            alloc,
            follows,
            events: Events::NONE,
            given: 0,
            rest: Vec::new(alloc),
            bad: None,
        }
    }

    /// Takes the next piece of the stream, and appends the windows that became whole to `whole`. However the stream was
    /// cut into pieces, the windows of all feeds and the place of a head that can't stand are those of the whole stream.
    /// `Bad` comes exactly where a complete head can't stand, after the windows before it were given, and each later call
    /// answers the same. After want of memory the splitter and the list are as before. A stream that isn't bad is shorter
    /// than 2^64 bytes; one that is bad takes a piece of any length.
    pub fn feed(
        &mut self,
        alloc: Global,
        piece: &[u8],
        whole: &mut Vec<Window>,
    ) -> Result<(), SplitFault>
        requires { self.old.bad ≡ None → self.old.given + length self.old.rest + length piece.now < 2 ^ 64 }
        ensures piece { Feeds result self.old piece.now self.new whole.old.items whole.new.items }
        ensures stream { (floor : ℕ) (stream : List ℕ) (windows : List Span) → ReadsAs floor stream windows self.old →
            Carries result floor stream piece.now windows whole.old.items whole.new.items self.new }
    {
        self.take(alloc, piece, whole)
    }

    // As `feed`, seen from the piece alone.
    fn take(
        &mut self,
        alloc: Global,
        piece: &[u8],
        whole: &mut Vec<Window>,
    ) -> Result<(), SplitFault>
        requires { self.old.bad ≡ None → self.old.given + length self.old.rest + length piece.now < 2 ^ 64 }
        ensures { Feeds result self.old piece.now self.new whole.old.items whole.new.items }
    {
        if let Some(place) = self.bad {
            return Err(SplitFault::Bad { place });
        }
        if self.rest.is_empty() {
            self.take_first(alloc, piece, whole)
        } else {
            self.take_more(alloc, piece, whole)
        }
    }

    // As `feed`, where nothing is left from before: only what is left behind the last window is copied.
    fn take_first(
        &mut self,
        alloc: Global,
        piece: &[u8],
        whole: &mut Vec<Window>,
    ) -> Result<(), SplitFault>
        requires good { self.old.bad ≡ None }
        requires none_left { self.old.rest ≡ [] }
        requires short { self.old.given + length piece.now < 2 ^ 64 }
        ensures { FeedsGood result self.old piece.now self.new whole.old.items whole.new.items }
    {
        let before = whole.len();
        let scanned = scan_all(alloc, self.follows, self.events, piece, whole);
        let Ok((scan, stop)) = scanned else {
            return Err(SplitFault::NoMemory);
        };
        let taken = piece.len() - scan.rest.len();
        match stop {
            Stop::Refused => Err(self.refuse(taken + scan.events.size)),
            Stop::Unfinished => {
                let Ok(()) = self.rest.extend_from_slice(scan.rest) else {
                    whole.truncate(before);
                    return Err(SplitFault::NoMemory);
                };
                self.follows = scan.follows;
                self.events = scan.events;
                self.given += taken as u64;
                Ok(())
            }
        }
    }

    // As `feed`, where something is left from before.
    fn take_more(
        &mut self,
        alloc: Global,
        piece: &[u8],
        whole: &mut Vec<Window>,
    ) -> Result<(), SplitFault>
        requires good { self.old.bad ≡ None }
        requires short { self.old.given + length self.old.rest + length piece.now < 2 ^ 64 }
        ensures { FeedsGood result self.old piece.now self.new whole.old.items whole.new.items }
    {
        let before = self.rest.len();
        let Ok(()) = self.rest.extend_from_slice(piece) else {
            return Err(SplitFault::NoMemory);
        };
        let scanned = scan_all(alloc, self.follows, self.events, &self.rest, whole);
        let Ok((scan, stop)) = scanned else {
            self.rest.truncate(before);
            return Err(SplitFault::NoMemory);
        };
        let (follows, events) = (scan.follows, scan.events);
        let taken = self.rest.len() - scan.rest.len();
        match stop {
            Stop::Refused => Err(self.refuse(taken + events.size)),
            Stop::Unfinished => {
                drop_front(&mut self.rest, taken);
                self.follows = follows;
                self.events = events;
                self.given += taken as u64;
                Ok(())
            }
        }
    }

    // Keeps that the head so far behind the windows given can't stand.
    fn refuse(&mut self, offset: usize) -> SplitFault
        requires { self.old.given + offset < 2 ^ 64 }
        ensures fault { result ≡ SplitFault.Bad (self.old.given + offset) }
        ensures bad { self.new.bad ≡ Some (self.old.given + offset) }
    {
        let place = self.given + offset as u64;
        self.bad = Some(place);
        self.rest = Vec::new(self.alloc);
        SplitFault::Bad { place }
    }
}
