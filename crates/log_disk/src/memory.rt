ghost use Rattle.std.specs.Prelude.{◌≡◌, ◌≤◌, ◌<◌, ◌+◌, ◌-◌, ◌++◌, ◌∷◌, [], false, length, min, max, take, drop, IfOk, vec_len, vec_capacity};
ghost use Rattle.log_disk.specs.Disk.{Keeps, ReadsAt, TellsLength, Writes, Cuts, Syncs, Only, may_leave};
ghost use Rattle.log_disk.specs.Pending.{is_in, is_written, put, Step};
ghost use Rattle.log_disk.specs.Pending.Step.{Wrote, CutTo, Synced};
ghost use Rattle.log_disk.specs.Memory.{filled_at, left_of, IsContent, new_disk, content, disk_of, exceeds, is_listed, is_refused, failed, failed_if, counted, used, stepped, after_asking, after_write, after_cut, after_sync, FailsWhere, picked, filled};

use crate::allowance::Allowance;
use crate::disk::Disk;
use bus_types::{Failed, NoMemory};
use std::alloc::Global;
use std::marker::Model;

/// What a crash leaves of a disk in memory.
#[derive(Clone, Copy, Debug, PartialEq, Eq)]
pub enum Pick {
    /// The bytes of the last sync.
    Synced,
    /// What a read gives.
    Read,
    /// What a read gives, with each byte that was written since the last sync replaced by this one.
    Fill(u8),
}

// A range of places.
#[derive(Clone, Copy, Debug, Drop)]
struct Range {
    place: u64,
    size: u64,
}

// A call that changed something. What a write wrote stands in the texts, one after the other.
#[derive(Clone, Copy, Debug, Drop)]
enum Call {
    Write { place: u64, size: u64 },
    Cut { size: u64 },
    Sync,
}

/// A disk in memory, which tells everything, also of each moment since it was made, and fails at the calls that it was
/// told. It takes all its memory when it is made.
///
/// A sync copies all bytes of the disk, and the calls that change it are kept: it is for tests and small logs.
#[derive(Debug, Drop)]
pub struct MemoryDisk {
    // What a read gives, what the last sync left, and the ranges that were written since.
    bytes: Vec<u8>,
    synced: Vec<u8>,
    written: Vec<Range>,
    // What it was made with, and what was done since. It is kept for contracts alone, and no code reads it.
    start: Vec<u8>,
    calls: Vec<Call>,
    texts: Vec<u8>,
    allowance: Allowance,
}

impl Model for MemoryDisk {
    ghost use Rattle.std.specs.Prelude.{◌≤◌, ◌+◌, length, vec_capacity};
    ghost use Rattle.log_disk.specs.Pending.{lasting, after_all};
    ghost use Rattle.log_disk.specs.Memory.{MemoryState, steps_of, AreKept};
    ghost use Rattle.log_disk.specs.Rooms.{AreRoomy};

    ghost Value = { MemoryState };

    ghost view = { λ d. record {
      start = d.start.items;
      steps = steps_of d.calls.items d.texts.items;
      room = d.allowance.room;
      calls = d.allowance.calls;
      fails = d.allowance.plan.fails.items;
      next = d.allowance.plan.calls;
      faults = d.allowance.plan.faults;
    } };

    ghost invariant = { λ d.
        AreKept (after_all (steps_of d.calls.items d.texts.items) (lasting d.start.items))
        d.calls.items d.texts.items d.bytes.items d.synced.items d.written.items
        × AreRoomy d.allowance.room d.allowance.calls d.start d.calls d.texts d.bytes d.synced d.written };
}

// Puts a text at a place, over what stands there and past the end. There is room for it.
fn put(bytes: &mut Vec<u8>, place: usize, text: &[u8])
    requires place { place ≤ length bytes.old.items }
    requires room { length bytes.old.items + length text.now ≤ vec_capacity bytes.old }
    ensures items { bytes.new.items ≡ put place text.now bytes.old.items }
    ensures length { length bytes.new.items ≤ length bytes.old.items + length text.now }
    ensures capacity { vec_capacity bytes.old ≤ vec_capacity bytes.new }
{
    let over = text.len().min(bytes.len() - place);
    bytes[place..place + over].copy_from_slice(&text[..over]);
    bytes.extend_from_slice(&text[over..]).unwrap();
}

// Puts an item behind the others. There is room for it.
fn push<T: Drop>(list: &mut Vec<T>, item: T)
    requires { length list.old.items < vec_capacity list.old }
    ensures items { list.new.items ≡ list.old.items ++ item ∷ [] }
    ensures capacity { vec_capacity list.old ≤ vec_capacity list.new }
{
    list.push(item).unwrap();
}

// Puts a text behind the bytes. There is room for it.
fn append(bytes: &mut Vec<u8>, text: &[u8])
    requires { length bytes.old.items + length text.now ≤ vec_capacity bytes.old }
    ensures items { bytes.new.items ≡ bytes.old.items ++ text.now }
    ensures capacity { vec_capacity bytes.old ≤ vec_capacity bytes.new }
{
    bytes.extend_from_slice(text).unwrap();
}

// Makes bytes those of a text. There is room for it.
fn copy(bytes: &mut Vec<u8>, text: &[u8])
    requires { length text.now ≤ vec_capacity bytes.old }
    ensures items { bytes.new.items ≡ text.now }
    ensures capacity { vec_capacity bytes.old ≤ vec_capacity bytes.new }
{
    bytes.clear();
    bytes.extend_from_slice(text).unwrap();
}

impl MemoryDisk {
    /// A disk that holds these bytes, all of them lasting. It has room for `room` bytes, counting these and all that are
    /// written to it, and for `calls` calls of the trait. It fails at the calls whose numbers are listed, counted from 0.
    ///
    /// A call that finds no room, for its bytes or for itself, answers `Failed`, changes nothing and takes no number. A
    /// write or a cut that is listed is made and then answers `Failed`; a sync that is listed makes nothing lasting. All
    /// the memory is taken here; `NoMemory` comes where there is not so much.
    pub fn new(
        alloc: Global,
        bytes: &[u8],
        room: u64,
        calls: u32,
        fails: &[u64],
    ) -> Result<MemoryDisk, NoMemory>
        requires { length bytes.now ≤ room }
        ensures new { IfOk result (λ disk. disk ≡ new_disk bytes.now (room - length bytes.now) calls fails.now) }
        ensures lasting { IfOk result (λ disk. Only bytes.now (may_leave (disk_of disk).clock)) }
    {
        let size = room as usize;
        let count = calls as usize;
        Ok(MemoryDisk {
            bytes: with_room(alloc, size, bytes)?,
            synced: with_room(alloc, size, bytes)?,
            written: Vec::with_capacity(alloc, count)?,
            start: with_room(alloc, size, bytes)?,
            calls: Vec::with_capacity(alloc, count)?,
            texts: Vec::with_capacity(alloc, size)?,
            allowance: Allowance::new(alloc, room - bytes.len() as u64, calls, fails)?,
        })
    }

    /// What a read gives.
    pub fn bytes(&self) -> &[u8]
        ensures { result.now ≡ (content self.now).bytes }
    {
        &self.bytes
    }

    // Makes it the disk after a crash now.
    fn restart(&mut self, pick: Pick)
        ensures state { self.new ≡ new_disk (picked pick (content self.old)) self.old.room self.old.calls [] }
        ensures whole { IsContent (content self.old) }
    {
        leave(pick, &mut self.bytes, &self.synced, &self.written);
        copy(&mut self.synced, &self.bytes);
        copy(&mut self.start, &self.bytes);
        self.written.clear();
        self.calls.clear();
        self.texts.clear();
        self.allowance.restart();
    }

    /// The disk after a crash now. It holds one of the contents that a crash may leave, all of it lasting, and has what is
    /// left of the room and of the calls. No call of it is to fail, and calls are numbered from 0 again. No memory is
    /// taken.
    pub fn crash(mut self, pick: Pick) -> MemoryDisk
        ensures state { result ≡ new_disk (picked pick (content self)) self.room self.calls [] }
        ensures left { may_leave (disk_of self).clock (picked pick (content self)) }
        ensures lasting { Only (picked pick (content self)) (may_leave (disk_of result).clock) }
    {
        self.restart(pick);
        self
    }

    // Whether a call that writes so many bytes finds no room for them, or none for itself.
    fn exceeds(&self, size: usize) -> bool
        ensures value { result ≡ exceeds size self.now }
        ensures whole { IsContent (content self.now) }
    {
        self.allowance.exceeds(size)
    }

    // Whether the next call is to fail.
    fn is_listed(&self) -> bool
        ensures { result ≡ is_listed self.now }
    {
        self.allowance.is_listed()
    }

    // Fails a call.
    fn fail(&mut self) -> Failed
        ensures state { self.new ≡ failed self.old }
        ensures later { self.old.faults ≤ self.new.faults }
    {
        self.allowance.fail()
    }

    // Counts a call, for which there is room.
    fn count(&mut self)
        requires { exceeds 0 self.old ≡ false }
        ensures { self.new ≡ counted self.old }
    {
        self.allowance.count();
    }

    // Fails a call that was counted, where it was listed.
    fn answer(&mut self, listed: bool) -> Result<(), Failed>
        ensures state { self.new ≡ failed_if listed self.old }
        ensures later { self.old.faults ≤ self.new.faults }
        ensures fails { FailsWhere listed result }
    {
        if listed {
            return Err(self.fail());
        }
        Ok(())
    }

    // Makes a call that changes nothing.
    fn ask(&mut self) -> Result<(), Failed>
        ensures keeps { Keeps (disk_of self.old) (disk_of self.new) result }
        ensures exact { FailsWhere (is_refused 0 self.old) result }
        ensures state { self.new ≡ after_asking self.old }
        ensures content { content self.new ≡ content self.old }
    {
        if self.exceeds(0) {
            return Err(self.fail());
        }
        let listed = self.is_listed();
        self.count();
        self.answer(listed)
    }

    // Makes a write, for which there is room.
    fn make_write(&mut self, place: usize, bytes: &[u8])
        requires room { exceeds (length bytes.now) self.old ≡ false }
        requires place { place ≤ length (content self.old).bytes }
        ensures { self.new ≡ stepped (Wrote place bytes.now) (used (length bytes.now) (counted self.old)) }
    {
        let size = bytes.len() as u64;
        put(&mut self.bytes, place, bytes);
        let place = place as u64;
        push(&mut self.written, Range { place, size });
        push(&mut self.calls, Call::Write { place, size });
        append(&mut self.texts, bytes);
        self.allowance.room -= size;
        self.allowance.count();
    }

    // Makes a cut, for which there is room.
    fn make_cut(&mut self, len: usize)
        requires room { exceeds 0 self.old ≡ false }
        requires len { len ≤ length (content self.old).bytes }
        ensures { self.new ≡ stepped (CutTo len) (counted self.old) }
    {
        self.bytes.truncate(len);
        push(&mut self.calls, Call::Cut { size: len as u64 });
        self.allowance.count();
    }

    // Makes a sync, for which there is room.
    fn make_sync(&mut self)
        requires { exceeds 0 self.old ≡ false }
        ensures { self.new ≡ stepped Synced (counted self.old) }
    {
        copy(&mut self.synced, &self.bytes);
        self.written.clear();
        push(&mut self.calls, Call::Sync);
        self.allowance.count();
    }
}

// Whether a place is in a range.
fn is_in(place: u64, range: &Range) -> bool
    ensures { result ≡ is_in place range.now }
{
    range.place <= place && place - range.place < range.size
}

// Whether a place was written.
fn is_written(ranges: &[Range], place: u64) -> bool
    ensures { result ≡ is_written ranges.now place }
{
    ranges.iter().any(|range| is_in(place, range))
}

// A byte, or another in its place where it was written.
fn filled_at(ranges: &[Range], byte: u8, bytes: &[u8], place: usize) -> u8
    requires { place < length bytes.now }
    ensures { result ≡ filled_at ranges.now byte bytes.now place }
{
    if is_written(ranges, place as u64) {
        byte
    } else {
        bytes[place]
    }
}

// Replaces each byte that was written.
fn fill(bytes: &mut [u8], ranges: &[Range], byte: u8)
    ensures { bytes.new ≡ filled ranges.now byte bytes.old }
{
    for place in 0..bytes.len() {
        bytes[place] = filled_at(ranges, byte, bytes, place);
    }
}

// What is left of bytes, of which the last sync left those.
fn leave(pick: Pick, bytes: &mut Vec<u8>, synced: &[u8], written: &[Range])
    requires { length synced.now ≤ vec_capacity bytes.old }
    ensures items { bytes.new.items ≡ left_of pick bytes.old.items synced.now written.now }
    ensures capacity { vec_capacity bytes.old ≤ vec_capacity bytes.new }
    ensures length { length bytes.new.items ≤ max (length bytes.old.items) (length synced.now) }
{
    match pick {
        Pick::Synced => copy(bytes, synced),
        Pick::Read => {}
        Pick::Fill(byte) => fill(bytes, written, byte),
    }
}

// Bytes, with room for so many.
fn with_room(alloc: Global, room: usize, bytes: &[u8]) -> Result<Vec<u8>, NoMemory>
    requires { length bytes.now ≤ room }
    ensures items { IfOk result (λ v. v.items ≡ bytes.now) }
    ensures capacity { IfOk result (λ v. room ≤ vec_capacity v) }
{
    let mut all = Vec::with_capacity(alloc, room)?;
    copy(&mut all, bytes);
    Ok(all)
}

// Copies as long a front of `from` as `to` has room for to the front of `to`, and answers how long it is.
fn copy_front(from: &[u8], to: &mut [u8]) -> usize
    ensures count { result ≡ min (length to.old) (length from.now) }
    ensures front { take result to.new ≡ take result from.now }
{
    let count = to.len().min(from.len());
    to[..count].copy_from_slice(&from[..count]);
    count
}

impl Disk for MemoryDisk {
    ghost state = { disk_of };

    fn len(&mut self) -> Result<u64, Failed>
        ensures tells { TellsLength (disk_of self.old) (disk_of self.new) result }
        ensures exact { FailsWhere (is_refused 0 self.old) result }
        ensures state { self.new ≡ after_asking self.old }
    {
        match self.ask() {
            Ok(()) => Ok(self.bytes.len() as u64),
            Err(fault) => Err(fault),
        }
    }

    /// Gives as many bytes as there are and `buf` has room for.
    fn read(&mut self, place: u64, buf: &mut [u8]) -> Result<usize, Failed>
        ensures reads { ReadsAt place buf.new (disk_of self.old) (disk_of self.new) result }
        ensures exact { FailsWhere (is_refused 0 self.old) result }
        ensures state { self.new ≡ after_asking self.old }
        ensures count { IfOk result (λ count. count ≡ min (length buf.old) (length (content self.old).bytes - place)) }
    {
        match self.ask() {
            Ok(()) => Ok(copy_front(tail(&self.bytes, place), buf)),
            Err(fault) => Err(fault),
        }
    }

    fn write_at(&mut self, place: u64, bytes: &[u8]) -> Result<(), Failed>
        requires { place ≤ length (content self.old).bytes }
        ensures writes { Writes place bytes.now (disk_of self.old) (disk_of self.new) result }
        ensures exact { FailsWhere (is_refused (length bytes.now) self.old) result }
        ensures state { self.new ≡ after_write place bytes.now self.old }
    {
        if self.exceeds(bytes.len()) {
            return Err(self.fail());
        }
        let listed = self.is_listed();
        self.make_write(place as usize, bytes);
        self.answer(listed)
    }

    fn cut(&mut self, len: u64) -> Result<(), Failed>
        requires { len ≤ length (content self.old).bytes }
        ensures cuts { Cuts len (disk_of self.old) (disk_of self.new) result }
        ensures exact { FailsWhere (is_refused 0 self.old) result }
        ensures state { self.new ≡ after_cut len self.old }
    {
        if self.exceeds(0) {
            return Err(self.fail());
        }
        let listed = self.is_listed();
        self.make_cut(len as usize);
        self.answer(listed)
    }

    fn sync(&mut self) -> Result<(), Failed>
        ensures syncs { Syncs (disk_of self.old) (disk_of self.new) result }
        ensures exact { FailsWhere (is_refused 0 self.old) result }
        ensures state { self.new ≡ after_sync self.old }
    {
        if self.exceeds(0) {
            return Err(self.fail());
        }
        if self.is_listed() {
            self.count();
            return Err(self.fail());
        }
        self.make_sync();
        Ok(())
    }
}

// The bytes from a place on: none from the end on.
fn tail(bytes: &[u8], place: u64) -> &[u8]
    ensures { result.now ≡ drop place bytes.now }
{
    bytes.get(place as usize..).unwrap_or(&[])
}
