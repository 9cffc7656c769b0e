ghost use Rattle.std.specs.Prelude.{◌≡◌, ℕ, List, ◌+◌, ◌*◌, ◌-◌, ◌≤◌, ◌<◌, ◌^◌, ◌++◌, ◌∷◌, [], false, true, length, drop, IfOk, OnOk, IfSome};
ghost use Rattle.bus_types.specs.Causes.{Rose};
ghost use Rattle.log_segment.specs.Looking.{Looks};
ghost use Rattle.log_segment.specs.Reading.{IsShort, IsRecord};
ghost use Rattle.log_segment.specs.Scanning.{IsScan, Notes, OnScanFailed, Scans, ScansAll, left};

use crate::ahead::{Ahead, PIECE, ReadFault, read_on};
use crate::read::{Front, record_front};
use crate::segment::{Entry, SegmentFault};
use bus_types::{NoMemory, Window};
use log_disk::Disk;
use std::alloc::Global;

/// What was read of a segment in use: the SCN behind which its windows begin, that of the newest window read, or the same,
/// the place of the next gate, and where each record lies.
#[derive(Drop)]
pub(crate) struct Scan {
    pub floor: u64,
    pub high: u64,
    pub gate: u64,
    pub index: Vec<Entry>,
}

impl Scan {
    // Notes a window, whose record takes so many bytes with its gate.
    fn note(&mut self, scn: u64, size: u64) -> Result<(), NoMemory>
        requires some { 0 < size }
        requires room { self.old.gate + size < 2 ^ 64 }
        ensures { OnOk result (Notes scn size self.old self.new) }
    {
        let place = self.gate + 1;
        self.index.push(Entry { scn, place })?;
        self.gate += size;
        self.high = scn;
        Ok(())
    }
}

// Where the bytes of a segment are at fault that end behind a gate, or before it.
fn fault_place(gate: u64, ahead: &[u8]) -> u64
    requires { gate + length ahead.now < 2 ^ 64 }
    ensures none { length ahead.now ≡ 0 → result ≡ gate }
    ensures some { 0 < length ahead.now → result ≡ gate + 1 }
{
    if ahead.is_empty() { gate } else { gate + 1 }
}

// Reads on, where what is ahead is no whole record. At the end of the disk the bytes are at fault.
fn read_more<D: Disk>(
    alloc: Global,
    disk: &mut D,
    end: u64,
    scan: &Scan,
    ahead: &mut Ahead,
) -> Result<bool, SegmentFault>
    requires room { scan.now.gate + length ahead.old ≤ end }
    requires short { IsShort scan.now.high ahead.old }
    ensures looks { Looks (D.state disk.old) (D.state disk.new) }
    ensures failed { OnScanFailed result (Rose (D.state disk.old).faults (D.state disk.new).faults) }
    ensures within { IfOk result (λ done. scan.now.gate + length ahead.new ≤ end) }
    ensures less { IfOk result (λ done. length ahead.old < length ahead.new) }
    ensures gate { IfOk result (λ done. done ≡ true → scan.now.gate < end) }
    ensures told { IfSome (D.state disk.old).seen (λ bytes. end ≡ length bytes → Scans result bytes scan.now ahead.old scan.now ahead.new) }
{
    let place = fault_place(scan.gate, ahead.bytes());
    match read_on(alloc, disk, end, scan.gate, PIECE, ahead) {
        Ok(0) => Err(SegmentFault::Bad { place }),
        Ok(_) => Ok(false),
        Err(ReadFault::Failed) => Err(SegmentFault::Failed),
        Err(ReadFault::NoMemory) => Err(SegmentFault::NoMemory),
    }
}

// Takes the record in front.
fn take_record(scan: &mut Scan, ahead: &mut Ahead, window: &Window) -> Result<bool, SegmentFault>
    requires stands { IsRecord scan.old.high window.now ahead.old }
    requires room { scan.old.gate + length ahead.old < 2 ^ 64 }
    ensures failed { OnScanFailed result ⊥ }
    ensures scan { IfOk result (λ done. (end : ℕ) → IsScan end scan.old ahead.old → IsScan end scan.new ahead.new) }
    ensures less { IfOk result (λ done. (end : ℕ) → IsScan end scan.old ahead.old
        → left end scan.new.gate ahead.new < left end scan.old.gate ahead.old) }
    ensures gate { IfOk result (λ done. (end : ℕ) → done ≡ true → scan.new.gate < end) }
    ensures told { (bytes : List ℕ) → Scans result bytes scan.old ahead.old scan.new ahead.new }
{
    let size = window.size() + 5;
    ahead.skip(size as usize);
    let Ok(()) = scan.note(window.scn(), size) else {
        return Err(SegmentFault::NoMemory);
    };
    Ok(false)
}

// Takes the next record, or reads on. It answers whether a closed gate stands in front.
#[tactic(auto, using(crate::proofs::Scannings::free_some))]
fn step<D: Disk>(
    alloc: Global,
    disk: &mut D,
    end: u64,
    scan: &mut Scan,
    ahead: &mut Ahead,
) -> Result<bool, SegmentFault>
    requires { IsScan end scan.old ahead.old }
    ensures looks { Looks (D.state disk.old) (D.state disk.new) }
    ensures failed { OnScanFailed result (Rose (D.state disk.old).faults (D.state disk.new).faults) }
    ensures scan { IfOk result (λ done. IsScan end scan.new ahead.new) }
    ensures gate { IfOk result (λ done. done ≡ true → scan.new.gate < end) }
    ensures less { IfOk result (λ done. done ≡ false → left end scan.new.gate ahead.new < left end scan.old.gate ahead.old) }
    ensures told { IfSome (D.state disk.old).seen (λ bytes. end ≡ length bytes → Scans result bytes scan.old ahead.old scan.new ahead.new) }
{
    let Ok(front) = record_front(alloc, scan.high, ahead.bytes()) else {
        return Err(SegmentFault::NoMemory);
    };
    match front {
        Front::Closed => Ok(true),
        Front::Refused => Err(SegmentFault::Bad {
            place: scan.gate + 1,
        }),
        Front::Record(window) => take_record(scan, ahead, &window),
        Front::Short => read_more(alloc, disk, end, scan, ahead),
    }
}

/// Reads a segment in use to the closed gate behind its last record.
pub(crate) fn scan_all<D: Disk>(
    alloc: Global,
    disk: &mut D,
    end: u64,
    from: Scan,
    ahead: &mut Ahead,
) -> Result<Scan, SegmentFault>
    requires { IsScan end from ahead.old }
    ensures looks { Looks (D.state disk.old) (D.state disk.new) }
    ensures failed { OnScanFailed result (Rose (D.state disk.old).faults (D.state disk.new).faults) }
    ensures scan { IfOk result (λ scan. IsScan end scan ahead.new) }
    ensures gate { IfOk result (λ scan. scan.gate < end) }
    ensures told { IfSome (D.state disk.old).seen (λ bytes. end ≡ length bytes → ScansAll result bytes from ahead.old ahead.new) }
{
    let mut scan = from;
    loop {
        match step(alloc, disk, end, &mut scan, ahead) {
            Ok(true) => return Ok(scan),
            Ok(false) => {}
            Err(fault) => return Err(fault),
        }
    }
}
