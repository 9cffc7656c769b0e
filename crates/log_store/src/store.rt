ghost use Rattle.std.specs.Prelude.{◌≡◌, ℕ, ◌<◌, ◌≤◌, ◌++◌, ◌∷◌, [], List, true, false, length, Some, None, IfSome, Ok, OnOk, vec_capacity};
ghost use Rattle.bus_types.specs.Window.{span_size};
ghost use Rattle.bus_stores.specs.Log.{AppendsWindow, ReadsNext, DropsWindows, at_rest, growing_to, dropping_to};
ghost use Rattle.log_store.specs.Joining.{AllOpened, AreOrdered};
ghost use Rattle.log_store.specs.Opening.{disks_of, LogOpened, OpensLog, FindsSame};
ghost use Rattle.log_store.specs.Order.{free_place, high_at, if_roomy, last_place, place_after};
ghost use Rattle.log_store.specs.Steps.{Grows, Reads, Drops, DropsOldest};
ghost use Rattle.log_store.specs.Store.{log_of, passes, losses_of, is_told, KeepsBehind};

use crate::change::{append_at, begin_at, free_at, next_at};
use crate::opening::{OpenLog, give_back, open_in_order};
use crate::order::{first_floor, free_place, high_at, last_high, place_after, roomy_last};
use bus_stores::{LogFault, WindowLog};
use bus_types::{Failed, NoMemory, Window};
use log_disk::Disk;
use log_segment::Segment;
use std::alloc::Global;
use std::marker::Model;
use std::snapshot::Snapshot;

/// A log over 1 to 16 disks, each of which holds one segment.
#[derive(Drop)]
pub struct LogStore<D: Disk> {
    // In the order of the disks.
    segments: Vec<Segment<D>>,
    // The places of those in use, in the order of their windows.
    order: Vec<usize>,
    floor: u64,
    high: u64,
    // Whether a call has failed that may have left a disk otherwise than it is told.
    lost: bool,
    // The disks as they were given, which contracts alone see.
    opened: Snapshot<Vec<D>>,
    // No disk, and room for each.
    room: Vec<D>,
}

impl<D: Disk> Model for LogStore<D> {
    ghost use Rattle.std.specs.Prelude.{◌≡◌, ◌≤◌, [], length, vec_capacity};
    ghost use Rattle.log_store.specs.Store.{StoreParts, IsStore};

    ghost Value = { StoreParts D };

    ghost view = { λ s. record {
      segments = s.segments.items;
      order = s.order.items;
      floor = s.floor;
      high = s.high;
      opened = s.opened.value.items;
      lost = s.lost;
    } };

    ghost invariant = { λ s.
        IsStore D.state (record {
          segments = s.segments.items;
          order = s.order.items;
          floor = s.floor;
          high = s.high;
          opened = s.opened.value.items;
          lost = s.lost;
        })
        × (s.room.items ≡ []) × (length s.segments.items ≤ vec_capacity s.room) };
}

impl<D: Disk + Drop> LogStore<D> {
    // A log of segments that follow each other in an order.
    fn joined(
        segments: Vec<Segment<D>>,
        order: Vec<usize>,
        opened: Snapshot<Vec<D>>,
        room: Vec<D>,
    ) -> LogStore<D>
        requires opened { AllOpened D.state opened.value.items segments.items }
        requires ordered { AreOrdered segments.items order.items }
        requires none { room.items ≡ [] }
        requires room { length segments.items ≤ vec_capacity room }
        ensures { LogOpened D.state opened.value.items result }
    {
        let floor = first_floor(&segments, &order);
        let high = last_high(&segments, &order);
        LogStore {
            segments,
            order,
            floor,
            high,
            lost: false,
            opened,
            room,
        }
    }

    // As `open`, seen from what each disk holds.
    fn join(alloc: Global, disks: Vec<D>) -> Result<LogStore<D>, (OpenLog, Vec<D>)>
        requires few { length disks.items ≤ 16 }
        ensures { OpensLog D.state disks.items result }
    {
        let opened = Snapshot::of(&disks);
        let mut disks = disks;
        let Ok(mut segments) = Vec::with_capacity(alloc, disks.len()) else {
            return Err((OpenLog::NoMemory, disks));
        };
        let Ok(mut order) = Vec::with_capacity(alloc, disks.len()) else {
            return Err((OpenLog::NoMemory, disks));
        };
        match open_in_order(alloc, &mut disks, &mut segments, &mut order) {
            Ok(()) => Ok(LogStore::joined(segments, order, opened, disks)),
            Err(fault) => {
                give_back(segments, &mut disks);
                Err((fault, disks))
            }
        }
    }

    /// Takes 1 to 16 disks and reads the segment of each, one after the other, and orders those in use by their SCNs; those of
    /// one SCN stand in the order of the disks. What was written to the disks is made lasting first, so that a crash leaves what
    /// is told. Without a segment in use the log begins and ends at 0.
    ///
    /// `BadSegment` comes exactly where the disks hold no log: it names the first disk that holds no segment, with the place of
    /// the first fault, and where each holds one, the first in their order that doesn't begin where the one before ends, with the
    /// place of its SCN, 9. `Failed` comes only where a disk's count of faults rose. The disks are handed back in order with the
    /// fault.
    pub fn open(alloc: Global, disks: Vec<D>) -> Result<LogStore<D>, (OpenLog, Vec<D>)>
        requires some { 0 < length disks.items }
        requires few { length disks.items ≤ 16 }
        ensures opens { OpensLog D.state disks.items result }
        ensures finds { FindsSame D.state disks.items result }
    {
        LogStore::join(alloc, disks)
    }

    /// Its disks, in order and as they stand. It takes no memory.
    pub fn into_disks(self) -> Vec<D>
        ensures { result.items ≡ disks_of self.segments }
    {
        let mut disks = self.room;
        give_back(self.segments, &mut disks);
        disks
    }
}

impl<D: Disk> LogStore<D> {
    // Appends a window to the last segment, which has room for it.
    fn append_last(&mut self, alloc: Global, place: usize, window: &Window) -> Result<(), LogFault>
        requires roomy { if_roomy self.old.segments (span_size window.now) (last_place self.old.order) ≡ Some place }
        requires chained { window.now.prev ≡ self.old.high }
        requires full { 0 < length window.now.changes }
        ensures { Grows D.state window.now self.old self.new result }
    {
        let scn = window.scn();
        match append_at(alloc, &mut self.segments, place, window) {
            Ok(()) => {
                self.high = scn;
                Ok(())
            }
            Err(LogFault::Failed) => {
                self.lost = true;
                Err(LogFault::Failed)
            }
            Err(LogFault::Full) => Err(LogFault::Full),
            Err(LogFault::NoMemory) => Err(LogFault::NoMemory),
        }
    }

    // Appends a window to a segment that isn't in use, where the last one has no room for it.
    fn append_next(&mut self, alloc: Global, window: &Window) -> Result<(), LogFault>
        requires none { if_roomy self.old.segments (span_size window.now) (last_place self.old.order) ≡ None }
        requires chained { window.now.prev ≡ self.old.high }
        requires full { 0 < length window.now.changes }
        ensures { Grows D.state window.now self.old self.new result }
    {
        let scn = window.scn();
        let Some(place) = free_place(&self.segments) else {
            return Err(LogFault::Full);
        };
        let Ok(()) = make_room(&mut self.order) else {
            return Err(LogFault::NoMemory);
        };
        match begin_at(alloc, &mut self.segments, place, window) {
            Ok(()) => {
                push(&mut self.order, place);
                self.high = scn;
                Ok(())
            }
            Err(LogFault::Failed) => {
                self.lost = true;
                Err(LogFault::Failed)
            }
            Err(LogFault::Full) => Err(LogFault::Full),
            Err(LogFault::NoMemory) => Err(LogFault::NoMemory),
        }
    }

    // Reads the oldest window behind an SCN of a segment, which is the first that has one.
    fn read_at(&mut self, alloc: Global, place: usize, scn: u64) -> Result<Option<Window>, LogFault>
        requires place { place_after (high_at self.old.segments) scn self.old.order ≡ Some place }
        requires low { self.old.floor ≤ scn }
        ensures { Reads D.state scn self.old self.new result }
    {
        next_at(alloc, &mut self.segments, place, scn)
    }

    // Whether another segment than the oldest is in use, and the oldest has no window behind an SCN.
    fn may_drop(&self, scn: u64) -> bool
        ensures many { result ≡ true → 1 < length self.now.order }
        ensures low { result ≡ true → (p : ℕ) (more : List ℕ) → self.now.order ≡ p ∷ more → high_at self.now.segments p ≤ scn }
        ensures rest { result ≡ false → KeepsBehind scn self.now }
        ensures none { Drops D.state scn self.now self.now (Ok tt) }
    {
        let Some((oldest, rest)) = self.order.split_first() else {
            return false;
        };
        !rest.is_empty() && high_at(&self.segments, *oldest) <= scn
    }

    // Gives the oldest segment up, which isn't the only one and has no window behind an SCN.
    fn drop_oldest(&mut self, scn: u64) -> Result<(), Failed>
        requires many { 1 < length self.old.order }
        requires low { (p : ℕ) (more : List ℕ) → self.old.order ≡ p ∷ more → high_at self.old.segments p ≤ scn }
        ensures drops { DropsOldest D.state scn self.old self.new result }
    {
        let place = self.order[0];
        let high = high_at(&self.segments, place);
        match free_at(&mut self.segments, place) {
            Ok(()) => {
                self.order.remove(0);
                self.floor = high;
                Ok(())
            }
            Err(fault) => {
                self.lost = true;
                Err(fault)
            }
        }
    }
}

// Makes room for one place more.
fn make_room(order: &mut Vec<usize>) -> Result<(), NoMemory>
    ensures items { order.new.items ≡ order.old.items }
    ensures room { OnOk result (length order.new.items < vec_capacity order.new) }
{
    order.reserve(1)?;
    Ok(())
}

// Puts a place behind the others. There is room for it.
fn push(order: &mut Vec<usize>, place: usize)
    requires { length order.old.items < vec_capacity order.old }
    ensures { order.new.items ≡ order.old.items ++ place ∷ [] }
{
    order.push(place).unwrap();
}

impl<D: Disk> WindowLog for LogStore<D> {
    ghost use Rattle.log_store.specs.Crash.{HoldPart, passes_then, passes_weaker, part_weaker};

    ghost state = { log_of D.state };

    ghost passes = { passes D.state };

    ghost weakens = { λ ws vs b c old new w p.
        passes_weaker (λ s. D.state s.disk) (HoldPart ws b) (HoldPart vs c) old.segments new.segments (part_weaker ws vs b c w) p };

    ghost passes_on = { λ ws b old now new p q. passes_then (λ s. D.state s.disk) (HoldPart ws b) old.segments now.segments new.segments p q };

    fn floor(&self) -> u64 {
        self.floor
    }

    fn high(&self) -> u64 {
        self.high
    }

    fn is_full(&self, size: u64) -> bool {
        roomy_last(&self.segments, &self.order, size).is_none()
            && free_place(&self.segments).is_none()
    }

    fn append(&mut self, alloc: Global, window: &Window) -> Result<(), LogFault>
        requires chained { window.now.prev ≡ (log_of D.state self.old).high }
        requires full { 0 < length window.now.changes }
        ensures append { AppendsWindow window.now (log_of D.state self.old) (log_of D.state self.new) result }
        ensures crash { IfSome (log_of D.state self.old).windows (λ ws. passes D.state (ws ++ window.now ∷ [])
            (growing_to window.now.scn (log_of D.state self.old)) self.old self.new) }

        // No disk is found to have lost a window.
        ensures losses { losses_of self.new.segments ≡ losses_of self.old.segments }
    {
        match roomy_last(&self.segments, &self.order, window.size()) {
            Some(place) => self.append_last(alloc, place, window),
            None => self.append_next(alloc, window),
        }
    }

    fn next(&mut self, alloc: Global, scn: u64) -> Result<Option<Window>, LogFault>
        requires { (log_of D.state self.old).floor ≤ scn }
        ensures next { ReadsNext scn (log_of D.state self.old) (log_of D.state self.new) result }
        ensures crash { IfSome (log_of D.state self.old).windows (λ ws. passes D.state ws (at_rest (log_of D.state self.old)) self.old self.new) }

        // A log that tells its windows loses none.
        ensures losses { is_told D.state self.old ≡ true → losses_of self.new.segments ≡ losses_of self.old.segments }
    {
        match place_after(&self.segments, &self.order, scn) {
            Some(place) => self.read_at(alloc, place, scn),
            None => Ok(None),
        }
    }

    /// Gives up the oldest segment, and again, while another is in use and it has no window behind the SCN.
    fn drop_through(&mut self, _alloc: Global, scn: u64) -> Result<(), LogFault>
        ensures drops { DropsWindows scn (log_of D.state self.old) (log_of D.state self.new) result }
        ensures crash { IfSome (log_of D.state self.old).windows (λ ws. passes D.state ws
            (dropping_to scn (log_of D.state self.old)) self.old self.new) }

        // Each segment that may be given up is.
        ensures each { OnOk result (KeepsBehind scn self.new) }

        // No disk is found to have lost a window.
        ensures losses { losses_of self.new.segments ≡ losses_of self.old.segments }
    {
        while self.may_drop(scn) {
            let Ok(()) = self.drop_oldest(scn) else {
                return Err(LogFault::Failed);
            };
        }
        Ok(())
    }
}
