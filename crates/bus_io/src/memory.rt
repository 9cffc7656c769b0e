ghost use Rattle.std.specs.Prelude.{◌≡◌, ◌+◌, ◌≤◌, ◌<◌, ◌↔◌, ◌&&◌, ◌||◌, ◌==◌, ◌++◌, Some, length, take, min, nat_lt, IsErr, IsTrue, IfOk, IfSome, OnErr, vec_len, vec_capacity};
ghost use Rattle.std.specs.Io.{ReadsAtMost, WritesAtMost};
ghost use Rattle.std.specs.Io.KnownBytes.{ReadConsumes, WriteAppends};
ghost use Rattle.bus_types.specs.Causes.{HasCause};
ghost use Rattle.bus_io.specs.Bytes.{TakesSome, ReadGives, RoomLeft};
ghost use Rattle.bus_types.specs.Counting.{next_count};
ghost use Rattle.bus_io.specs.Memory.{new_reader, new_writer, is_listed, is_refused, room_left, after_read, after_write, sure_room};

use crate::sink::Sink;
use crate::source::Source;
use bus_types::{Failed, NoMemory, Plan};
use std::alloc::Global;
use std::marker::Model;

// Counts a call, and answers whether it is to fail.
fn next_fails(plan: &mut Plan<u64>) -> bool
    ensures listed { result ≡ is_listed plan.old.fails.items plan.old.calls }
    ensures calls { plan.new.calls ≡ next_count plan.old.calls }
    ensures faults { plan.new.faults ≡ plan.old.faults }
    ensures fails { plan.new.fails.items ≡ plan.old.fails.items }
{
    let call = plan.next_call();
    plan.fails.contains(&call)
}

/// A source in memory, which gives its bytes and fails at the calls that it was told.
#[derive(Debug, Drop)]
pub struct MemorySource {
    bytes: Vec<u8>,
    given: usize,
    plan: Plan<u64>,
}

impl Model for MemorySource {
    ghost use Rattle.std.specs.Prelude.{◌≤◌, take, drop, length};
    ghost use Rattle.bus_io.specs.Memory.{Reader};

    ghost Value = { Reader };

    ghost view = { λ s. record {
      given = take s.given s.bytes.items;
      left = drop s.given s.bytes.items;
      fails = s.plan.fails.items;
      calls = s.plan.calls;
      faults = s.plan.faults;
    } };

    ghost invariant = { λ s. s.given ≤ length s.bytes.items };
}

impl MemorySource {
    /// A source that gives these bytes, and fails at the calls whose numbers, counted from 0, are listed.
    pub fn new(alloc: Global, bytes: &[u8], fails: &[u64]) -> Result<MemorySource, NoMemory>
        ensures { IfOk result (λ source. source ≡ new_reader bytes.now fails.now) }
    {
        Ok(MemorySource {
            bytes: Vec::from_slice(alloc, bytes)?,
            given: 0,
            plan: Plan::new(alloc, fails)?,
        })
    }

    /// The bytes that it has not given yet.
    fn left(&self) -> &[u8]
        ensures { result.now ≡ self.now.left }
    {
        &self.bytes[self.given..]
    }
}

/// Copies as long a front of `from` as `to` has room for to the front of `to`, and answers how long it is.
fn copy_front(from: &[u8], to: &mut [u8]) -> usize
    ensures count { result ≡ min (length to.old) (length from.now) }
    ensures front { take result to.new ≡ take result from.now }
{
    let count = to.len().min(from.len());
    to[..count].copy_from_slice(&from[..count]);
    count
}

impl Source for MemorySource {
    ghost left = { λ s. Some s.left };

    ghost given = { λ s. Some s.given };

    ghost faults = { λ s. s.faults };

    ghost Beside = { Unit {0} };

    ghost beside = { λ _. tt };

    /// Gives as many bytes as there are and `buf` has room for. `Failed` comes exactly at the listed calls.
    fn read(&mut self, buf: &mut [u8]) -> Result<usize, Failed>
        ensures bound { ReadsAtMost result buf.new }
        ensures bytes { ReadConsumes (Some self.old.left) (Some self.new.left) result buf.new }
        ensures given { ReadGives (Some self.old.given) (Some self.new.given) result buf.new }
        ensures cause { HasCause self.old.faults self.new.faults result }
        ensures exact { IsErr result ↔ IsTrue (is_listed self.old.fails self.old.calls) }
        ensures count { IfOk result (λ n. n ≡ min (length buf.old) (length self.old.left)) }
        ensures counted { self.new ≡ after_read self.old (length buf.old) }
    {
        if next_fails(&mut self.plan) {
            return Err(self.plan.fail());
        }
        let count = copy_front(self.left(), buf);
        self.given += count;
        Ok(count)
    }
}

/// A sink in memory, which takes bytes as long as it has room and fails at the calls that it was told.
#[derive(Debug, Drop)]
pub struct MemorySink {
    bytes: Vec<u8>,
    room: u64,
    plan: Plan<u64>,
}

impl Model for MemorySink {
    ghost use Rattle.std.specs.Prelude.{◌≤◌, length, vec_capacity};
    ghost use Rattle.bus_io.specs.Memory.{Writer};

    ghost Value = { Writer };

    ghost view = { λ s. record {
      bytes = s.bytes.items;
      room = s.room;
      fails = s.plan.fails.items;
      calls = s.plan.calls;
      faults = s.plan.faults;
    } };

    ghost invariant = { λ s. (length s.bytes.items ≤ s.room) × (s.room ≤ vec_capacity s.bytes) };
}

impl MemorySink {
    /// A sink that takes `room` bytes in all, and fails at the calls whose numbers, counted from 0, are listed. The
    /// memory for the bytes is taken here, and no write takes any. `NoMemory` comes where there is not so much.
    pub fn new(alloc: Global, room: u64, fails: &[u64]) -> Result<MemorySink, NoMemory>
        ensures { IfOk result (λ sink. sink ≡ new_writer room fails.now) }
    {
        Ok(MemorySink {
            bytes: Vec::with_capacity(alloc, room as usize)?,
            room,
            plan: Plan::new(alloc, fails)?,
        })
    }

    /// The bytes that were written to it.
    pub fn bytes(&self) -> &[u8]
        ensures { result.now ≡ self.now.bytes }
    {
        &self.bytes
    }
}

/// Whether a write of `bytes` fails where `left` is the room that is left.
fn is_refused(listed: bool, left: usize, bytes: &[u8]) -> bool
    ensures { result ≡ (listed || (nat_lt 0 (length bytes.now) && left == 0)) }
{
    listed || (!bytes.is_empty() && left == 0)
}

/// Appends bytes for which there is room.
pub(crate) fn append(to: &mut Vec<u8>, bytes: &[u8])
    requires { vec_len to.old + length bytes.now ≤ vec_capacity to.old }
    ensures items { to.new.items ≡ to.old.items ++ bytes.now }
    ensures capacity { vec_capacity to.old ≤ vec_capacity to.new }
{
    to.extend_from_slice(bytes).unwrap();
}

impl Sink for MemorySink {
    ghost written = { λ s. Some s.bytes };

    ghost room = { sure_room };

    ghost faults = { λ s. s.faults };

    ghost Beside = { Unit {0} };

    ghost beside = { λ _. tt };

    /// Takes as many of the bytes as still fit. `Failed` comes exactly at the listed calls, and where there are
    /// bytes and no room is left.
    fn write(&mut self, bytes: &[u8]) -> Result<usize, Failed>
        ensures bound { WritesAtMost result bytes.now }
        ensures some { TakesSome result bytes.now }
        ensures bytes { WriteAppends (Some self.old.bytes) (Some self.new.bytes) result bytes.now }
        ensures full { OnErr result (IfSome (sure_room self.old) (λ n. n < length bytes.now)) }
        ensures room { IfOk result (λ count. RoomLeft (sure_room self.old) (sure_room self.new) count) }
        ensures cause { HasCause self.old.faults self.new.faults result }
        ensures exact { IsErr result ↔ IsTrue (is_refused self.old bytes.now) }
        ensures count { IfOk result (λ n. n ≡ min (length bytes.now) (room_left self.old)) }
        ensures counted { self.new ≡ after_write self.old bytes.now }
    {
        let listed = next_fails(&mut self.plan);
        let left = self.room as usize - self.bytes.len();
        if is_refused(listed, left, bytes) {
            return Err(self.plan.fail());
        }
        let count = left.min(bytes.len());
        append(&mut self.bytes, &bytes[..count]);
        Ok(count)
    }
}
