ghost use Rattle.std.specs.Prelude.{None, List};
ghost use Rattle.bus_types.specs.Causes.{HasCause};
ghost use Rattle.dispatcher.specs.Callbacks.{Callback, Describes};

use bus_types::{Count, MarkText};
use dispatcher::{Consumer, NoCallbacks, Refusal, Refused, dispatch, dispatch_reply};
use event_codec::{Answer, EventView, ReplyView, Shape};
use std::alloc::Global;
use std::test::*;

// The window with SCN 10 after 0 that puts aa at source 0, key 1, and the window with SCN 20 after 10 that a filter left
// without events.
const WINDOWS: [u8; 58] = [
    1, 0, 0, 0, 0, 0, 0, 0, 0, 0, 10, 0, 0, 0, 0, 0, 0, 0, 1, 0, 0, 0, 1, 0xaa, // the event
    3, 0, 0, 0, 0, 0, 0, 0, 10, 0, 0, 0, 0, 0, 0, 0, 0, // its mark
    3, 0, 0, 0, 0, 0, 0, 0, 20, 0, 0, 0, 0, 0, 0, 0, 10, // the other mark
];

// What a call told.
#[derive(Clone, Copy, Debug, PartialEq, Eq)]
enum Seen {
    Start(u64),
    Event(u64, u64),
    End(u64),
    Clear(u64),
    Rollback(u64),
}

// Keeps what was told, and refuses the call of one number, from 0 on, and calls for which there is no memory. It tells
// nothing to contracts: for want of memory it may have to forget a call.
#[derive(Drop)]
struct Recorder {
    seen: Vec<Seen>,
    refuse: Option<usize>,
    refusals: Count,
}

impl Recorder {
    fn new(alloc: Global, refuse: Option<usize>) -> Recorder {
        Recorder {
            seen: Vec::new(alloc),
            refuse,
            refusals: Count::zero(),
        }
    }

    fn note(&mut self, seen: Seen) -> Result<(), Refusal>
        ensures { HasCause self.old.refusals self.new.refusals result }
    {
        let call = self.seen.len();
        if self.seen.push(seen).is_err() || self.refuse == Some(call) {
            self.refusals.raise();
            return Err(Refusal);
        }
        Ok(())
    }
}

impl Consumer for Recorder {
    ghost calls = { λ _. None };

    ghost refusals = { λ r. r.refusals };

    fn on_start(&mut self, scn: u64) -> Result<(), Refusal> {
        self.note(Seen::Start(scn))
    }

    fn on_event(&mut self, scn: u64, event: &EventView<'_>) -> Result<(), Refusal> {
        self.note(Seen::Event(scn, event.key))
    }

    fn on_end(&mut self, scn: u64) -> Result<(), Refusal> {
        self.note(Seen::End(scn))
    }

    fn on_clear(&mut self, scn: u64) -> Result<(), Refusal> {
        self.note(Seen::Clear(scn))
    }

    fn on_rollback(&mut self, scn: u64) {
        let _ = self.seen.push(Seen::Rollback(scn));
    }

    fn on_checkpoint(&mut self, _mark: &MarkText) {}
}

// The two windows as they are told to who refuses the call of one number, and what was answered.
fn told(alloc: Global, refuse: Option<usize>) -> (Vec<Seen>, Result<(), Refused>) {
    let mut consumer = Recorder::new(alloc, refuse);
    let shape = Shape::Windows { count: 2, last: 20 };
    let answer = dispatch(&mut consumer, &shape, &WINDOWS, 5);
    (consumer.seen, answer)
}

#[test]
fn windows_are_told_in_order(rt: HostRuntime) {
    let (seen, answer) = told(rt.alloc(), None);
    let calls = [
        Seen::Start(10),
        Seen::Event(10, 1),
        Seen::End(10),
        Seen::Start(20),
        Seen::End(20),
    ];
    assert_eq!(rt; answer, Ok(()));
    assert_eq!(rt; seen.as_slice(), calls.as_slice());
}

#[test]
fn a_refused_event_leads_back_to_the_floor(rt: HostRuntime) {
    let (seen, answer) = told(rt.alloc(), Some(1));
    let calls = [Seen::Start(10), Seen::Event(10, 1), Seen::Rollback(5)];
    assert_eq!(rt; answer, Err(Refused { scn: 10 }));
    assert_eq!(rt; seen.as_slice(), calls.as_slice());
}

#[test]
fn a_snapshot_clears(rt: HostRuntime) {
    let mut consumer = Recorder::new(rt.alloc(), None);
    let reply = ReplyView::Only(Answer::StartSnapshot(30));
    assert_eq!(rt; dispatch_reply(&mut consumer, &reply, 5), Ok(()));
    assert_eq!(rt; dispatch_reply(&mut NoCallbacks, &reply, 5), Ok(()));
    assert_eq!(rt; consumer.seen.as_slice(), [Seen::Clear(30)].as_slice());
}
