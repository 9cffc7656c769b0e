ghost use Rattle.std.specs.Prelude.{◌≡◌, ◌≤◌, ◌<◌, ℕ, true, false, nat_le, length, Some, IfOk, IfSome};
ghost use Rattle.std.specs.List.Sorted.{IsPartitionPoint};
ghost use Rattle.bus_types.specs.Causes.{Rose};
ghost use Rattle.bus_types.specs.Window.{Span};
ghost use Rattle.log_segment.specs.Looking.{Looks, OnReadFailed};
ghost use Rattle.log_segment.specs.Segment.{RisesTo};
ghost use Rattle.log_segment.specs.Lookup.{scn_before, entry_after, Fetches, FetchesAt};

use crate::ahead::{Ahead, ReadFault, read_on};
use crate::read::{Front, behind_gate};
use crate::segment::Entry;
use bus_types::{MAX_WINDOW, Window};
use log_disk::Disk;
use std::alloc::Global;

// The most bytes of a record: a window's length, and the window.
const MOST: u64 = 4 + MAX_WINDOW;

// How many windows have an SCN of at most this one.
fn place_after(index: &[Entry], scn: u64) -> usize
    requires { (floor : ℕ) × (high : ℕ) × RisesTo high floor index.now }
    ensures { IsPartitionPoint (λ e. nat_le e.scn scn ≡ true) (λ e. nat_le e.scn scn ≡ false) index.now result }
{
    index.partition_point(|entry| entry.scn <= scn)
}

// The SCN of the window before a place, or the floor.
fn scn_before(floor: u64, index: &[Entry], at: usize) -> u64
    requires { at ≤ length index.now }
    ensures { result ≡ scn_before floor at index.now }
{
    if at == 0 { floor } else { index[at - 1].scn }
}

/// Where the oldest window behind an SCN lies, with the SCN of the window before it, or the floor.
pub(crate) fn entry_after(floor: u64, index: &[Entry], scn: u64) -> Option<(u64, Entry)>
    requires { (high : ℕ) × RisesTo high floor index.now }
    ensures { result ≡ entry_after floor scn index.now }
{
    let at = place_after(index, scn);
    if at < index.len() {
        Some((scn_before(floor, index, at), index[at]))
    } else {
        None
    }
}

/// How many bytes of the record of an entry are read at once: all of them, by where the next record stands, or the end.
pub(crate) fn piece_of(end: u64, index: &[Entry], entry: Entry) -> usize
    requires { (floor : ℕ) × (high : ℕ) × RisesTo high floor index.now }
    ensures { 0 < result }
{
    let at = place_after(index, entry.scn);
    let next = if at < index.len() {
        index[at].place
    } else {
        end
    };
    let size = next.saturating_sub(entry.place).saturating_sub(1);
    size.max(1).min(MOST) as usize
}

// The window whose record stands at a place before an end, where it follows an SCN. So many bytes are read at once.
fn fetch_at<D: Disk>(
    alloc: Global,
    disk: &mut D,
    end: u64,
    place: u64,
    prev: u64,
    piece: usize,
) -> Result<Option<Window>, ReadFault>
    requires place { place ≤ end }
    requires piece { 0 < piece }
    ensures looks { Looks (D.state disk.old) (D.state disk.new) }
    ensures failed { OnReadFailed result (Rose (D.state disk.old).faults (D.state disk.new).faults) }
    ensures told { IfOk result (λ found. IfSome (D.state disk.old).seen (λ bytes. end ≤ length bytes → FetchesAt end place prev bytes found)) }
{
    let mut ahead = Ahead::new(alloc);
    loop {
        let Ok(front) = behind_gate(alloc, prev, ahead.bytes()) else {
            return Err(ReadFault::NoMemory);
        };
        match front {
            Front::Record(window) => return Ok(Some(window)),
            Front::Closed | Front::Refused => return Ok(None),
            Front::Short => {}
        }
        match read_on(alloc, disk, end, place, piece, &mut ahead) {
            Ok(0) => return Ok(None),
            Ok(_) => {}
            Err(fault) => return Err(fault),
        }
    }
}

// A window, where it has this SCN.
fn with_scn(scn: u64, found: Option<Window>) -> Option<Window>
    ensures window { IfSome result (λ w. w.scn ≡ scn) }
    ensures kept { (w : Span) → found ≡ Some w → scn ≡ w.scn → result ≡ Some w }
{
    match found {
        Some(window) if window.scn() == scn => Some(window),
        _ => None,
    }
}

/// The window of an entry, where its record stands before an end and follows an SCN. So many bytes are read at once.
pub(crate) fn fetch<D: Disk>(
    alloc: Global,
    disk: &mut D,
    end: u64,
    entry: Entry,
    prev: u64,
    piece: usize,
) -> Result<Option<Window>, ReadFault>
    requires { 0 < piece }
    ensures looks { Looks (D.state disk.old) (D.state disk.new) }
    ensures failed { OnReadFailed result (Rose (D.state disk.old).faults (D.state disk.new).faults) }
    ensures scn { IfOk result (λ found. IfSome found (λ w. w.scn ≡ entry.scn)) }
    ensures told { IfOk result (λ found. IfSome (D.state disk.old).seen (λ bytes. end ≤ length bytes → Fetches end entry prev bytes found)) }
{
    if entry.place > end {
        return Ok(None);
    }
    match fetch_at(alloc, disk, end, entry.place, prev, piece) {
        Ok(found) => Ok(with_scn(entry.scn, found)),
        Err(fault) => Err(fault),
    }
}
