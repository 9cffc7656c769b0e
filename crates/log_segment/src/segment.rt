ghost use Rattle.std.specs.Prelude.{◌≡◌, ◌+◌, ◌≤◌, ◌<◌, ◌++◌, ◌∷◌, [], length, true, false, IfSome, IfOk, OnOk, vec_capacity};
ghost use Rattle.bus_types.specs.declared.limits.TheConstants.{MAX_SCN};
ghost use Rattle.log_segment.specs.Image.{head_bytes, record_bytes};
ghost use Rattle.log_segment.specs.Lookup.{ReadsNext};
ghost use Rattle.log_segment.specs.Opening.{Opens, Finds};
ghost use Rattle.log_segment.specs.Segment.{told, IsSegment, numbers_of, free_numbers, BeginsBehind, Frees, Appends, OnRefused, Formats, with_window};

use crate::ahead::ReadFault;
use crate::fetch::{entry_after, fetch, piece_of};
use crate::gate::{close_first, cut_lasting, put_behind};
use crate::opening::read_segment;
use crate::record::{head_text, record_text};
use bus_stores::LogFault;
use bus_types::{Count, Failed, NoMemory, Window};
use event_codec::write_window;
use log_disk::Disk;
use std::alloc::Global;
use std::marker::Model;

/// The most bytes that a segment has in use after an append.
pub const MAX_USED: u64 = 67_108_864;

// The bytes that a record has beside its window: a gate, and the window's length.
const RECORD: u64 = 5;

// The bytes of a segment without a window: its gate, the tag, an SCN, and the gate of the first record.
const HEAD: u64 = 18;

// A window of a segment: its SCN, and the place of its record's length.
#[derive(Clone, Copy, Debug, Drop)]
pub(crate) struct Entry {
    pub scn: u64,
    pub place: u64,
}

/// Why a segment was not opened.
#[derive(Clone, Copy, Debug, PartialEq, Eq)]
pub enum SegmentFault {
    /// The disk holds no segment.
    Bad {
        /// The place of the first byte that is missing or wrong; of a record at fault that of its length.
        place: u64,
    },
    /// The disk failed. It comes only where its count of faults rose.
    Failed,
    /// Memory ran out.
    NoMemory,
}

/// A segment of a log on a disk: windows that follow a floor and each other. It keeps 16 bytes of memory a window.
///
/// Its count of faults is that of its disk, and one for each time that the disk gave something else in a window's place.
#[derive(Debug, Drop)]
pub struct Segment<D: Disk> {
    disk: D,
    // The place behind the last gate.
    used: u64,
    in_use: bool,
    floor: u64,
    high: u64,
    index: Vec<Entry>,
    lost: Count,
}

impl<D: Disk> Model for Segment<D> {
    ghost use Rattle.log_segment.specs.Segment.{SegmentParts, told, IsSegment};

    ghost Value = { SegmentParts D };

    ghost view = { λ s. record {
      disk = s.disk;
      numbers = record { used = s.used; in_use = s.in_use; floor = s.floor; high = s.high; index = s.index.items; lost = s.lost };
    } };

    ghost invariant = { λ s. IsSegment (record {
      disk = D.state s.disk;
      numbers = record { used = s.used; in_use = s.in_use; floor = s.floor; high = s.high; index = s.index.items; lost = s.lost };
    }) };
}

impl<D: Disk> Segment<D> {
    /// The bytes that are in use, up to the gate behind the last record: 18, and for each window its size and 5; 1 where the
    /// segment isn't in use.
    pub fn used(&self) -> u64
        ensures { result ≡ self.now.numbers.used }
    {
        self.used
    }

    /// Whether it is in use.
    pub fn in_use(&self) -> bool
        ensures { result ≡ self.now.numbers.in_use }
    {
        self.in_use
    }

    /// The SCN behind which its windows begin.
    pub fn floor(&self) -> u64
        ensures value { result ≡ self.now.numbers.floor }
        ensures segment { IsSegment (told D.state self.now) }
    {
        self.floor
    }

    /// The SCN of its newest window, or its floor where it has none.
    pub fn high(&self) -> u64
        ensures value { result ≡ self.now.numbers.high }
        ensures segment { IsSegment (told D.state self.now) }
    {
        self.high
    }

    // As `open`, seen from what is read.
    fn read(alloc: Global, disk: D) -> Result<Segment<D>, (SegmentFault, D)>
        ensures { Opens D.state disk result }
    {
        let mut disk = disk;
        match read_segment(alloc, &mut disk) {
            Ok(Some(scan)) => Ok(Segment {
                disk,
                used: scan.gate + 1,
                in_use: true,
                floor: scan.floor,
                high: scan.high,
                index: scan.index,
                lost: Count::zero(),
            }),
            Ok(None) => Ok(Segment {
                disk,
                used: 1,
                in_use: false,
                floor: 0,
                high: 0,
                index: Vec::new(alloc),
                lost: Count::zero(),
            }),
            Err(fault) => Err((fault, disk)),
        }
    }

    /// Takes a disk and reads its segment, once from its front to the gate that ends it, in pieces of 65,536 bytes. What was
    /// written to the disk is made lasting first, so that a crash leaves what is told.
    ///
    /// `Bad` comes exactly where the disk holds no segment, with the place of the first fault. `Failed` comes only where the
    /// disk's count of faults rose. The disk is handed back with the fault.
    pub fn open(alloc: Global, disk: D) -> Result<Segment<D>, (SegmentFault, D)>
        ensures opens { Opens D.state disk result }
        ensures finds { IfOk result (λ segment. IfSome (D.state disk).seen (λ bytes. Finds bytes (told D.state segment))) }
    {
        Segment::read(alloc, disk)
    }

    /// Its disk, as it stands.
    pub fn into_disk(self) -> D
        ensures { result ≡ self.disk }
    {
        self.disk
    }

    // Takes the numbers of a segment without a window, behind this SCN.
    fn note_begun(&mut self, floor: u64)
        requires low { floor ≤ MAX_SCN }
        requires room { IfSome (D.state self.old.disk).seen (λ bytes. HEAD ≤ length bytes) }
        ensures disk { self.new.disk ≡ self.old.disk }
        ensures numbers { self.new.numbers ≡ numbers_of self.old.numbers.lost floor [] }
    {
        self.used = HEAD;
        self.in_use = true;
        self.floor = floor;
        self.high = floor;
        self.index.clear();
    }

    /// Takes a segment into use, behind an SCN, without a window. A crash at any moment leaves it free or begun. After
    /// `Failed`, which comes only where its count of faults rose, the disk is opened again.
    pub fn begin(&mut self, prev: u64) -> Result<(), Failed>
        requires free { self.old.numbers.in_use ≡ false }
        requires low { prev ≤ MAX_SCN }
        ensures { BeginsBehind prev (told D.state self.old) (told D.state self.new) result }
    {
        match put_behind(&mut self.disk, 0, &head_text(prev)) {
            Ok(()) => {
                self.note_begun(prev);
                Ok(())
            }
            Err(fault) => Err(fault),
        }
    }

    // Takes the numbers of a segment that isn't in use.
    fn note_freed(&mut self)
        ensures disk { self.new.disk ≡ self.old.disk }
        ensures numbers { self.new.numbers ≡ free_numbers self.old.numbers.lost }
    {
        self.used = 1;
        self.in_use = false;
        self.floor = 0;
        self.high = 0;
        self.index.clear();
    }

    /// Gives a segment up, with its windows. A crash at any moment leaves it as it was or free. After `Failed`, which comes
    /// only where its count of faults rose, the disk is opened again.
    pub fn free(&mut self) -> Result<(), Failed>
        requires { self.old.numbers.in_use ≡ true }
        ensures { Frees (told D.state self.old) (told D.state self.new) result }
    {
        match close_first(&mut self.disk) {
            Ok(()) => {
                self.note_freed();
                Ok(())
            }
            Err(fault) => Err(fault),
        }
    }

    /// Makes a disk one of a segment that isn't in use, whatever it holds: it is then one closed gate. A disk that is to be
    /// kept is not formatted: a crash may leave anything of it.
    #[tactic(auto, using(crate::proofs::Segments::formats))]
    pub fn format(disk: &mut D) -> Result<(), Failed>
        ensures { Formats (D.state disk.old) (D.state disk.new) result }
    {
        match close_first(disk) {
            Ok(()) => cut_lasting(disk, 1),
            Err(fault) => Err(fault),
        }
    }

    /// Appends a window in full that follows the newest one, by two writes that are each made lasting; nothing is read. A
    /// crash at any moment leaves the windows from before, with the new one or without, and from `Ok` on with it.
    ///
    /// `Full` comes exactly where the used length would be above [`MAX_USED`]. `Failed` comes only where the count of faults
    /// rose, and the disk is then opened again. After `Full` and `NoMemory` the segment is as before.
    pub fn append(&mut self, alloc: Global, window: &Window) -> Result<(), LogFault>
        requires in_use { self.old.numbers.in_use ≡ true }
        requires chained { window.now.prev ≡ self.old.numbers.high }
        requires full { 0 < length window.now.changes }
        ensures appends { Appends window.now (told D.state self.old) (told D.state self.new) result }
        ensures kept { OnRefused result (self.new ≡ self.old) }
    {
        let size = window.size();
        if self.used > MAX_USED - RECORD - size {
            return Err(LogFault::Full);
        }
        let Ok(text) = record_text(alloc, window) else {
            return Err(LogFault::NoMemory);
        };
        let Ok(()) = make_room(&mut self.index) else {
            return Err(LogFault::NoMemory);
        };
        match put_behind(&mut self.disk, self.used - 1, &text) {
            Ok(()) => {
                let (scn, place) = (window.scn(), self.used);
                push(&mut self.index, Entry { scn, place });
                self.used += size + RECORD;
                self.high = scn;
                Ok(())
            }
            Err(Failed) => Err(LogFault::Failed),
        }
    }

    /// A copy of the oldest window behind an SCN, and `None` exactly where the segment has none. It reads the window's record
    /// and no other, at once.
    ///
    /// `Failed` comes only where the count of faults rose: the disk failed, or it gave something else in the window's place.
    /// The segment stays as it is, also after a fault.
    pub fn next(&mut self, alloc: Global, scn: u64) -> Result<Option<Window>, LogFault>
        ensures { ReadsNext scn (told D.state self.old) (told D.state self.new) result }
    {
        let Some((prev, entry)) = entry_after(self.floor, &self.index, scn) else {
            return Ok(None);
        };
        let piece = piece_of(self.used, &self.index, entry);
        match fetch(alloc, &mut self.disk, self.used, entry, prev, piece) {
            Ok(Some(window)) => Ok(Some(window)),
            Ok(None) => {
                self.lost.raise();
                Err(LogFault::Failed)
            }
            Err(ReadFault::Failed) => Err(LogFault::Failed),
            Err(ReadFault::NoMemory) => Err(LogFault::NoMemory),
        }
    }
}

// Makes room for one entry more.
fn make_room(index: &mut Vec<Entry>) -> Result<(), NoMemory>
    ensures items { index.new.items ≡ index.old.items }
    ensures room { OnOk result (length index.new.items < vec_capacity index.new) }
{
    index.reserve(1)?;
    Ok(())
}

// Puts an entry behind the others. There is room for it.
fn push(index: &mut Vec<Entry>, entry: Entry)
    requires { length index.old.items < vec_capacity index.old }
    ensures { index.new.items ≡ index.old.items ++ entry ∷ [] }
{
    index.push(entry).unwrap();
}
