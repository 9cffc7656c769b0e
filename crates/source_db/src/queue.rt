ghost use Rattle.std.specs.Prelude.{◌≡◌, ◌≤◌, ◌<◌, ◌++◌, [], ◌∷◌, length, take, drop, slice_get, Some, MatchOption, OnOk, OnErr};
ghost use Rattle.bus_types.specs.Timeline.{IsTimeline, end_from, end_of};
ghost use Rattle.source_db.specs.Queue.{waiting};

use crate::past::Past;
use bus_types::{NoMemory, Window};
use std::alloc::Global;
use std::collections::VecDeque;
use std::marker::Model;

/// The windows that were committed, in order, each of which is let go as soon as it is passed on: it keeps those alone that
/// wait. Contracts see all of them, and the SCN of the last one that was passed on, or 0.
#[derive(Debug, Drop)]
pub struct CommitQueue {
    past: Past,
    waiting: VecDeque<Window>,
    // the SCN of the last window, or 0
    last: u64,
    // how many windows there are, with those that were let go
    count: u64,
}

impl Model for CommitQueue {
    ghost use Rattle.std.specs.Prelude.{◌++◌};
    ghost use Rattle.bus_types.specs.Timeline.{end_of};
    ghost use Rattle.source_db.specs.Queue.{Commits, IsKept};

    ghost Value = { Commits };

    ghost view = { λ q. record { windows = q.past ++ q.waiting.items; passed = end_of q.past } };

    ghost invariant = { λ q. IsKept (q.past ++ q.waiting.items) q.last q.count };
}

impl CommitQueue {
    /// A source without a commit.
    pub fn new(alloc: Global) -> CommitQueue
        ensures { result ≡ record { windows = []; passed = 0 } }
    {
        CommitQueue {
            past: Past::new(),
            waiting: VecDeque::new(alloc),
            last: 0,
            count: 0,
        }
    }

    /// The SCN of the last commit, or 0.
    pub fn last(&self) -> u64
        ensures value { result ≡ end_of self.now.windows }
        ensures timeline { IsTimeline self.now.windows }
    {
        self.last
    }

    /// The number of commits.
    pub fn count(&self) -> u64
        ensures { result ≡ length self.now.windows }
    {
        self.count
    }

    /// Appends a window that is chained to the last one. After want of memory the source is as before.
    pub fn append(&mut self, _alloc: Global, window: Window) -> Result<(), NoMemory>
        requires chained { window.prev ≡ end_of self.old.windows }
        requires full { 0 < length window.changes }
        ensures ok { OnOk result (self.new ≡ record self.old { windows = self.old.windows ++ window ∷ [] }) }
        ensures err { OnErr result (self.new ≡ self.old) }
    {
        let _within = window.size();
        let scn = window.scn();
        self.waiting.push_back(window)?;
        self.last = scn;
        self.count += 1;
        Ok(())
    }

    /// The next window that waits. `None` comes exactly where none does.
    pub fn next(&self) -> Option<&Window>
        ensures { MatchOption result (waiting self.now ≡ []) (λ w. slice_get (waiting self.now) 0 ≡ Some w.now) }
    {
        self.waiting.front()
    }

    /// Lets the next window go that waits, where one does.
    pub fn pass(&mut self)
        ensures windows { self.new.windows ≡ self.old.windows }
        ensures waiting { waiting self.new ≡ drop 1 (waiting self.old) }
        ensures passed { self.new.passed ≡ end_from self.old.passed (take 1 (waiting self.old)) }
    {
        if let Some(window) = self.waiting.pop_front() {
            self.past.push(&window);
        }
    }
}
