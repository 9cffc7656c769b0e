ghost use Rattle.std.specs.Prelude.{◌≡◌, ◌≤◌, ◌<◌, ◌++◌, [], ◌∷◌, ◌-◌, length, take, drop, OnOk, OnErr};
ghost use Rattle.bus_types.specs.Timeline.{IsTimeline, end_of, windows_between};
ghost use Rattle.source_db.specs.Commit.{next_window, Refuses};

use bus_types::{Change, NoMemory, Window, WindowFault};
use std::alloc::Global;
use std::marker::Model;

/// Why a commit was refused.
#[derive(Clone, Copy, Debug, PartialEq, Eq)]
pub enum CommitFault {
    /// The SCN isn't above the last one.
    NotRising {
        /// The last SCN.
        last: u64,
    },
    /// The changes are no window in full.
    Bad(WindowFault),
    /// Memory ran out.
    NoMemory,
}

/// The windows that were committed, in order. Contracts see the list of them.
#[derive(Debug, Drop)]
pub struct SourceDb {
    windows: Vec<Window>,
}

impl Model for SourceDb {
    ghost use Rattle.std.specs.Prelude.{List};
    ghost use Rattle.bus_types.specs.Window.{Span};
    ghost use Rattle.bus_types.specs.Timeline.{IsTimeline};

    ghost Value = { List Span };

    ghost view = { λ s. s.windows.items };

    ghost invariant = { λ s. IsTimeline s.windows.items };
}

impl SourceDb {
    /// A source without a commit.
    pub fn new(alloc: Global) -> SourceDb
        ensures { result ≡ [] }
    {
        SourceDb {
            windows: Vec::new(alloc),
        }
    }

    /// The SCN of the last commit, or 0.
    pub fn last(&self) -> u64
        ensures value { result ≡ end_of self.now }
        ensures timeline { IsTimeline self.now }
    {
        last_scn(&self.windows)
    }

    /// The number of commits.
    pub fn count(&self) -> u64
        ensures { result ≡ length self.now }
    {
        self.windows.len() as u64
    }

    /// Appends a window that is chained to the last one. After want of memory the source is as before.
    pub fn append(&mut self, _alloc: Global, window: Window) -> Result<(), NoMemory>
        requires chained { window.prev ≡ end_of self.old }
        requires full { 0 < length window.changes }
        ensures ok { OnOk result (self.new ≡ self.old ++ window ∷ []) }
        ensures err { OnErr result (self.new ≡ self.old) }
    {
        let _within = window.size();
        self.windows.push(window)?;
        Ok(())
    }

    /// Commits the changes as one window, chained to the one before it. `NotRising` comes exactly where the SCN isn't
    /// above the last one, `Bad` exactly where it is and the changes are no window in full. After a fault the source
    /// is as before.
    pub fn commit(
        &mut self,
        alloc: Global,
        scn: u64,
        changes: Vec<Change>,
    ) -> Result<(), CommitFault>
        ensures ok { OnOk result (self.new ≡ self.old ++ next_window self.old scn changes.items ∷ []) }
        ensures err { OnErr result (self.new ≡ self.old) }
        ensures refused { Refuses self.old scn changes.items result }
    {
        let last = self.last();
        if scn <= last {
            return Err(CommitFault::NotRising { last });
        }
        let window = match Window::new(scn, last, changes) {
            Ok(window) => window,
            Err((fault, _)) => return Err(CommitFault::Bad(fault)),
        };
        match self.append(alloc, window) {
            Ok(()) => Ok(()),
            Err(NoMemory) => Err(CommitFault::NoMemory),
        }
    }

    /// The windows after an SCN, in order, found by a binary search.
    pub fn windows_after(&self, scn: u64) -> &[Window]
        ensures { result.now ≡ windows_between scn (end_of self.now) self.now }
    {
        &self.windows[self.place_after(scn)..]
    }

    /// The windows with `low < SCN <= high`, in order, found by two binary searches.
    pub fn windows_between(&self, low: u64, high: u64) -> &[Window]
        requires { low ≤ high }
        ensures { result.now ≡ windows_between low high self.now }
    {
        part(&self.windows, self.place_after(low), self.place_after(high))
    }

    // How many windows have an SCN of at most this one.
    fn place_after(&self, scn: u64) -> usize
        ensures place { result ≡ length (windows_between 0 scn self.now) }
        ensures within { result ≤ length self.now }
        ensures timeline { IsTimeline self.now }
    {
        self.windows.partition_point(|window| window.scn() <= scn)
    }
}

// The SCN of the last window, or 0.
fn last_scn(windows: &[Window]) -> u64
    ensures { result ≡ end_of windows.now }
{
    match windows.last() {
        None => 0,
        Some(window) => window.scn(),
    }
}

// The windows from one place to another.
fn part(windows: &[Window], from: usize, to: usize) -> &[Window]
    requires from { from ≤ to }
    requires to { to ≤ length windows.now }
    ensures { result.now ≡ take (to - from) (drop from windows.now) }
{
    &windows[from..to]
}
