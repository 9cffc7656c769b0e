ghost use Rattle.std.specs.Prelude.{◌≡◌, ℕ, List, [], ◌∷◌, take, drop, option_map, MatchOption, IfSome};
ghost use Rattle.bus_types.specs.Window.{Span, IsSpan};
ghost use Rattle.event_codec.specs.Bytes.{Event, event_bytes, window_bytes};
ghost use Rattle.event_codec.specs.Streams.{windows_bytes};
ghost use Rattle.event_codec.specs.View.{event_of, IsView};
ghost use Rattle.event_codec.specs.Parsing.{read_all, event_in_front, events_bytes, AreEvents, HaveEvents, window_events, windows_in, AreWindows, HaveWindows, first_scn, first_event, behind_event, first_mark, behind_mark};

use crate::event::EventView;
use crate::mark::{self, MARK_SIZE};
use std::marker::Model;

/// Events one after the other, where they stand in bytes: those of a window, or the rows or the changes of a reply.
/// Contracts see the list of the events.
#[derive(Debug, Drop)]
pub struct Run<'a> {
    bytes: &'a [u8],
}

impl<'a> Model for Run<'a> {
    ghost use Rattle.std.specs.Prelude.{List};
    ghost use Rattle.event_codec.specs.Bytes.{Event};
    ghost use Rattle.event_codec.specs.Parsing.{events_in, HaveEvents};

    ghost Value = { List Event };

    ghost view = { λ run. events_in run.bytes.now };

    ghost invariant = { λ run. HaveEvents run.bytes.now };
}

impl<'a> Run<'a> {
    /// The events that bytes are.
    pub fn of(bytes: &'a [u8]) -> Run<'a>
        requires { HaveEvents bytes.now }
        ensures { (events : List Event) → AreEvents events bytes.now → result ≡ events }
    {
        Run { bytes }
    }

    /// The bytes of the events.
    pub fn bytes(&self) -> &'a [u8]
        ensures { result.now ≡ events_bytes self.now }
    {
        self.bytes
    }

    /// The same events once more.
    pub fn again(&self) -> Run<'a>
        ensures { result ≡ self.now }
    {
        Run { bytes: self.bytes }
    }

    /// Takes the next event, with its own bytes. `None` comes exactly at the end.
    pub fn next(&mut self) -> Option<(EventView<'a>, &'a [u8])>
        ensures event { MatchOption result ((self.old ≡ []) × (self.new ≡ [])) (λ x. self.old ≡ event_of x.0 ∷ self.new) }
        ensures view { IfSome result (λ x. IsView x.0) }
        ensures own { IfSome result (λ x. x.1.now ≡ event_bytes (event_of x.0)) }
    {
        let (view, own, behind) = EventView::split(self.bytes)?;
        self.bytes = behind;
        Some((view, own))
    }

    // Takes the first so many events, or those there are.
    fn skip(&mut self, count: usize)
        ensures { self.new ≡ drop count self.old }
    {
        let mut left = count;
        while left > 0 {
            let Some(_) = self.next() else {
                return;
            };
            left -= 1;
        }
    }

    /// The first so many events, or those there are. They are read to their end.
    pub fn first(&self, count: usize) -> Run<'a>
        ensures { result ≡ take count self.now }
    {
        let mut rest = Run { bytes: self.bytes };
        rest.skip(count);
        Run {
            bytes: &self.bytes[..self.bytes.len() - rest.bytes.len()],
        }
    }
}

/// A window where it stands in bytes. Contracts see the window.
#[derive(Debug, Drop)]
pub struct WindowView<'a> {
    scn: u64,
    prev: u64,
    bytes: &'a [u8],
}

impl<'a> Model for WindowView<'a> {
    ghost use Rattle.bus_types.specs.Window.{Span};
    ghost use Rattle.event_codec.specs.Parsing.{window_of, IsWindow};

    ghost Value = { Span };

    ghost view = { λ w. window_of w.bytes.now };

    ghost invariant = { λ w. IsWindow w.scn w.prev w.bytes.now };
}

impl<'a> WindowView<'a> {
    /// Its SCN, from 1 on.
    pub fn scn(&self) -> u64
        ensures value { result ≡ self.now.scn }
        ensures fits { IsSpan self.now }
    {
        self.scn
    }

    /// The SCN of the window before it in its timeline, or 0.
    pub fn prev(&self) -> u64
        ensures { result ≡ self.now.prev }
    {
        self.prev
    }

    /// Its events.
    pub fn events(&self) -> Run<'a>
        ensures { result ≡ window_events self.now }
    {
        Run {
            bytes: &self.bytes[..self.bytes.len() - MARK_SIZE],
        }
    }

    /// Its bytes, with those of its mark.
    pub fn bytes(&self) -> &'a [u8]
        ensures { result.now ≡ window_bytes self.now }
    {
        self.bytes
    }
}

/// Windows one after the other, where they stand in bytes. Contracts see the list of the windows. They are taken whole by
/// `next`, or item by item by `event` and `mark`: of a window of which events were taken the others and the mark are left.
#[derive(Debug, Drop)]
pub struct Windows<'a> {
    bytes: &'a [u8],
}

impl<'a> Model for Windows<'a> {
    ghost use Rattle.std.specs.Prelude.{List};
    ghost use Rattle.bus_types.specs.Window.{Span};
    ghost use Rattle.event_codec.specs.Parsing.{windows_in, HaveWindows};

    ghost Value = { List Span };

    ghost view = { λ windows. windows_in windows.bytes.now };

    ghost invariant = { λ windows. HaveWindows windows.bytes.now };
}

// What follows the events that bytes begin with.
fn behind_events(bytes: &[u8]) -> &[u8]
    ensures { result.now ≡ (read_all event_in_front bytes.now).1 }
{
    let mut rest = bytes;
    while let Some((_, _, behind)) = EventView::split(rest) {
        rest = behind;
    }
    rest
}

// The first of the windows that bytes are, and the bytes behind it.
fn split_window(bytes: &[u8]) -> Option<(WindowView<'_>, &[u8])>
    requires { HaveWindows bytes.now }
    ensures window { MatchOption result (windows_in bytes.now ≡ []) (λ x. windows_in bytes.now ≡ x.0 ∷ windows_in x.1.now) }
    ensures behind { IfSome result (λ x. HaveWindows x.1.now) }
{
    let marked = behind_events(bytes);
    let (scn, prev) = mark::front(marked)?;
    let (own, behind) = bytes.split_at(bytes.len() - marked.len() + MARK_SIZE);
    let window = WindowView {
        scn,
        prev,
        bytes: own,
    };
    Some((window, behind))
}

impl<'a> Windows<'a> {
    /// The windows that bytes are.
    pub fn of(bytes: &'a [u8]) -> Windows<'a>
        requires { HaveWindows bytes.now }
        ensures { (windows : List Span) → AreWindows windows bytes.now → result ≡ windows }
    {
        Windows { bytes }
    }

    /// The bytes of the windows.
    pub fn bytes(&self) -> &'a [u8]
        ensures { result.now ≡ windows_bytes self.now }
    {
        self.bytes
    }

    /// The same windows once more.
    pub fn again(&self) -> Windows<'a>
        ensures { result ≡ self.now }
    {
        Windows { bytes: self.bytes }
    }

    /// Takes the next window. It is read to its end. `None` comes exactly at the end.
    pub fn next(&mut self) -> Option<WindowView<'a>>
        ensures { MatchOption result ((self.old ≡ []) × (self.new ≡ [])) (λ window. self.old ≡ window ∷ self.new) }
    {
        let (window, behind) = split_window(self.bytes)?;
        self.bytes = behind;
        Some(window)
    }

    // Takes the first so many windows, or those there are.
    fn skip(&mut self, count: usize)
        ensures { self.new ≡ drop count self.old }
    {
        let mut left = count;
        while left > 0 {
            let Some(_) = self.next() else {
                return;
            };
            left -= 1;
        }
    }

    /// The first so many windows, or those there are. They are read to their end.
    pub fn first(&self, count: usize) -> Windows<'a>
        ensures { result ≡ take count self.now }
    {
        let mut rest = Windows { bytes: self.bytes };
        rest.skip(count);
        Windows {
            bytes: &self.bytes[..self.bytes.len() - rest.bytes.len()],
        }
    }

    /// The SCN of the next window. `None` comes exactly at the end.
    pub fn scn(&self) -> Option<u64>
        ensures { result ≡ first_scn self.now }
    {
        if let Some((view, _, _)) = EventView::split(self.bytes) {
            return Some(view.scn);
        }
        let (scn, _) = mark::front(self.bytes)?;
        Some(scn)
    }

    /// Takes the next event of the window in front, with its own bytes. `None` comes exactly where that window has no more
    /// events, or at the end.
    pub fn event(&mut self) -> Option<(EventView<'a>, &'a [u8])>
        ensures event { option_map (λ x. event_of x.0) result ≡ first_event self.old }
        ensures behind { self.new ≡ behind_event self.old }
        ensures view { IfSome result (λ x. IsView x.0) }
        ensures own { IfSome result (λ x. x.1.now ≡ event_bytes (event_of x.0)) }
    {
        let (view, own, behind) = EventView::split(self.bytes)?;
        self.bytes = behind;
        Some((view, own))
    }

    /// Takes the mark of the window in front: its SCN, and the SCN before it. `None` comes exactly where an event of that
    /// window stands before it, or at the end.
    pub fn mark(&mut self) -> Option<(u64, u64)>
        ensures mark { result ≡ first_mark self.old }
        ensures behind { self.new ≡ behind_mark self.old }
    {
        let mark = mark::front(self.bytes)?;
        let (_own, behind) = self.bytes.split_at(MARK_SIZE);
        self.bytes = behind;
        Some(mark)
    }
}
