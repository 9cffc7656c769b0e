ghost use Rattle.std.specs.Prelude.{◌≡◌, ◌≤◌, ◌<◌, ◌^◌, [], length, IfOk, IfErr};
ghost use Rattle.bus_types.specs.Change.{changes_size, AreChanges};
ghost use Rattle.bus_types.specs.Window.{Span, span_size, IsSpan, bad_scn, window_fault, cut_fault};
ghost use Rattle.bus_types.specs.declared.limits.TheConstants.{MAX_CHANGES};

use crate::change::Change;
use crate::fault::NoMemory;
use crate::limits::{MAX_CHANGES, MAX_SCN, MAX_WINDOW};
use std::alloc::Global;
use std::marker::Model;

/// Why changes were no window.
#[derive(Clone, Copy, Debug, PartialEq, Eq)]
pub enum WindowFault {
    /// The SCN is 0 or above [`MAX_SCN`], or not above the SCN before it.
    BadScn,
    /// There are no changes.
    Empty,
    /// There are more than [`MAX_CHANGES`] changes.
    TooMany,
    /// The window would take more than [`MAX_WINDOW`] bytes on the wire.
    TooLarge,
}

/// The changes of one commit, or those of them that a filter accepts. One row may change several times, and the
/// last change counts. Contracts see its SCN, the SCN of the window before it and its changes.
#[derive(Debug, Drop)]
pub struct Window {
    scn: u64,
    prev: u64,
    changes: Vec<Change>,
    size: u64,
}

impl Model for Window {
    ghost use Rattle.std.specs.Prelude.{◌≡◌};
    ghost use Rattle.bus_types.specs.Window.{Span, span_size, IsSpan};

    ghost Value = { Span };

    ghost view = { λ w. record { scn = w.scn; prev = w.prev; changes = w.changes.items } };

    ghost invariant = { λ w.
        let span : Span = record { scn = w.scn; prev = w.prev; changes = w.changes.items } in
        IsSpan span × (w.size ≡ span_size span) };
}

// Whether an SCN is out of its range or not above the one before it.
fn is_bad_scn(scn: u64, prev: u64) -> bool
    ensures { result ≡ bad_scn (record { scn = scn; prev = prev; changes = [] }) }
{
    scn == 0 || scn > MAX_SCN || scn <= prev
}

/// Equal changes, in the same order.
pub fn copy_changes(alloc: Global, changes: &[Change]) -> Result<Vec<Change>, NoMemory>
    ensures { IfOk result (λ copies. copies.items ≡ changes.now) }
{
    let mut copies = Vec::with_capacity(alloc, changes.len())?;
    for change in changes {
        copies.push(change.copy(alloc)?)?;
    }
    Ok(copies)
}

// The bytes that the changes take on the wire.
fn size_of(changes: &[Change]) -> u64
    requires { length changes.now ≤ MAX_CHANGES }
    ensures value { result ≡ changes_size changes.now }
    ensures fit { AreChanges changes.now }
    ensures small { result < 2 ^ 32 }
{
    let mut size = 0;
    for change in changes {
        size += change.size();
    }
    size
}

impl Window {
    /// The window in full of a commit. The first fault that applies, in the order in which [`WindowFault`] lists
    /// them, hands the changes back.
    pub fn new(
        scn: u64,
        prev: u64,
        changes: Vec<Change>,
    ) -> Result<Window, (WindowFault, Vec<Change>)>
        ensures ok { IfOk result (λ window. window ≡ record { scn = scn; prev = prev; changes = changes.items }) }
        ensures none { IfOk result (λ window. window_fault window ≡ None) }
        ensures fault { IfErr result (λ fault. window_fault (record { scn = scn; prev = prev; changes = changes.items }) ≡ Some fault.0) }
        ensures back { IfErr result (λ fault. fault.1 ≡ changes) }
    {
        if changes.is_empty() && !is_bad_scn(scn, prev) {
            return Err((WindowFault::Empty, changes));
        }
        Window::cut(scn, prev, changes)
    }

    /// A window as a filter left it: as [`Window::new`], and it may have no change, so it never answers `Empty`.
    pub fn cut(
        scn: u64,
        prev: u64,
        changes: Vec<Change>,
    ) -> Result<Window, (WindowFault, Vec<Change>)>
        ensures ok { IfOk result (λ window. window ≡ record { scn = scn; prev = prev; changes = changes.items }) }
        ensures none { IfOk result (λ window. cut_fault window ≡ None) }
        ensures fault { IfErr result (λ fault. cut_fault (record { scn = scn; prev = prev; changes = changes.items }) ≡ Some fault.0) }
        ensures back { IfErr result (λ fault. fault.1 ≡ changes) }
    {
        if is_bad_scn(scn, prev) {
            return Err((WindowFault::BadScn, changes));
        }
        if changes.len() > MAX_CHANGES {
            return Err((WindowFault::TooMany, changes));
        }
        let size = size_of(&changes) + 17;
        if size > MAX_WINDOW {
            return Err((WindowFault::TooLarge, changes));
        }
        Ok(Window {
            scn,
            prev,
            changes,
            size,
        })
    }

    /// An equal window.
    pub fn copy(&self, alloc: Global) -> Result<Window, NoMemory>
        ensures { IfOk result (λ window. window ≡ self.now) }
    {
        Ok(Window {
            scn: self.scn,
            prev: self.prev,
            changes: copy_changes(alloc, &self.changes)?,
            size: self.size,
        })
    }

    /// The SCN, from 1 to [`MAX_SCN`].
    pub fn scn(&self) -> u64
        ensures value { result ≡ self.now.scn }
        ensures fits { IsSpan self.now }
    {
        self.scn
    }

    /// The SCN of the window before it in its timeline, or 0. It is below the window's own.
    pub fn prev(&self) -> u64
        ensures { result ≡ self.now.prev }
    {
        self.prev
    }

    /// The changes, in order.
    pub fn changes(&self) -> &[Change]
        ensures { result.now ≡ self.now.changes }
    {
        &self.changes
    }

    /// The changes, in order, of a window that is given up. It takes no memory, and no payload is copied.
    pub fn into_changes(self) -> Vec<Change>
        ensures { result.items ≡ self.changes }
    {
        self.changes
    }

    /// The bytes that it takes on the wire: its events and its end-of-period mark. It takes no pass over the changes.
    pub fn size(&self) -> u64
        ensures value { result ≡ span_size self.now }
        ensures fits { IsSpan self.now }
    {
        self.size
    }
}
