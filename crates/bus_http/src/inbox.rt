ghost use Rattle.std.specs.Prelude.{◌≡◌, ◌+◌, ◌-◌, ◌<◌, ◌≤◌, [], length, take, drop, IfOk, OnErr};
ghost use Rattle.std.specs.Io.KnownBytes.{IsAtEnd};
ghost use Rattle.bus_types.specs.Causes.{HasCause};
ghost use Rattle.bus_http.specs.Inbox.{Draws};

use bus_io::Source;
use bus_types::{Failed, NoMemory};
use std::alloc::Global;
use std::marker::Model;

/// The most bytes of a head, which are those that an inbox holds at most.
pub(crate) const MAX_HEAD: usize = 16_384;

/// The bytes of a source that were read and not yet taken, at most 16,384. Contracts see those bytes. Requests that came
/// together are taken one after another; all are of the one source that the inbox is read into from.
#[derive(Debug, Drop)]
pub struct Inbox {
    room: Vec<u8>,
    // Those held stand from the first place to the second.
    start: usize,
    end: usize,
}

impl Model for Inbox {
    ghost use Rattle.std.specs.Prelude.{ℕ, List, ◌≡◌, ◌≤◌, length, take, drop};

    ghost Value = { List ℕ };

    ghost view = { λ i. drop i.start (take i.end i.room.items) };

    ghost invariant = { λ i. (length i.room.items ≡ 16384) × (i.start ≤ i.end) × (i.end ≤ 16384) };
}

// So many zeros.
fn zeros(alloc: Global, count: usize) -> Result<Vec<u8>, NoMemory>
    ensures { IfOk result (λ zeros. length zeros.items ≡ count) }
{
    Ok(vec![in alloc; 0; count]?)
}

// Moves what stands between two places to the front, and answers where it ends then. What stands there already isn't moved.
fn shift(room: &mut [u8], start: usize, end: usize) -> usize
    requires ordered { start ≤ end }
    requires within { end ≤ length room.old }
    ensures end { result ≡ end - start }
    ensures moved { take (end - start) room.new ≡ drop start (take end room.old) }
{
    if start == 0 {
        return end;
    }
    room.copy_within(start..end, 0);
    end - start
}

/// Reads behind so many bytes, and answers how many came: none only where the input has ended.
pub(crate) fn fill<S: Source>(from: &mut S, room: &mut [u8], used: usize) -> Result<usize, Failed>
    requires { used < length room.old }
    ensures draws { IfOk result (λ count. Draws (S.left from.old) (S.left from.new) (S.given from.old) (S.given from.new)
        (take used room.old) (take (used + count) room.new)) }
    ensures within { IfOk result (λ count. used + count ≤ length room.new) }
    ensures end { IfOk result (λ count. count ≡ 0 → IsAtEnd (S.left from.new)) }
    ensures failed { OnErr result (Draws (S.left from.old) (S.left from.new) (S.given from.old) (S.given from.new)
        (take used room.old) (take used room.new)) }
    ensures cause { HasCause (S.faults from.old) (S.faults from.new) result }
    ensures beside { S.beside from.new ≡ S.beside from.old }
{
    match from.read(&mut room[used..]) {
        Ok(count) => Ok(count),
        Err(Failed) => Err(Failed),
    }
}

impl Inbox {
    /// An inbox that holds nothing. It takes the memory for what it will hold, and nothing that reads into it takes any for
    /// that. `NoMemory` comes where there is not so much.
    pub fn new(alloc: Global) -> Result<Inbox, NoMemory>
        ensures { IfOk result (λ inbox. inbox ≡ []) }
    {
        Ok(Inbox {
            room: zeros(alloc, MAX_HEAD)?,
            start: 0,
            end: 0,
        })
    }

    /// What it holds.
    pub(crate) fn held(&self) -> &[u8]
        ensures held { result.now ≡ self.now }
        ensures short { length self.now ≤ 16384 }
    {
        &self.room[self.start..self.end]
    }

    /// So many bytes at its front.
    pub(crate) fn front(&self, count: usize) -> &[u8]
        requires { count ≤ length self.now }
        ensures { result.now ≡ take count self.now }
    {
        &self.held()[..count]
    }

    /// What it holds behind so many bytes.
    pub(crate) fn behind(&self, place: usize) -> &[u8]
        requires { place ≤ length self.now }
        ensures behind { result.now ≡ drop place self.now }
        ensures short { length self.now ≤ 16384 }
    {
        &self.held()[place..]
    }

    /// Takes so many bytes.
    pub(crate) fn skip(&mut self, count: usize)
        requires { count ≤ length self.old }
        ensures { self.new ≡ drop count self.old }
    {
        self.start += count;
    }

    /// Reads more behind what it holds, and answers how many bytes came: none only where the input has ended. After `Failed`,
    /// which comes only where the source's count rose, it holds what it held.
    pub(crate) fn read_more<S: Source>(&mut self, from: &mut S) -> Result<usize, Failed>
        requires { length self.old < 16384 }
        ensures draws { Draws (S.left from.old) (S.left from.new) (S.given from.old) (S.given from.new) self.old self.new }
        ensures size { IfOk result (λ count. length self.new ≡ length self.old + count) }
        ensures short { length self.new ≤ 16384 }
        ensures end { IfOk result (λ count. count ≡ 0 → IsAtEnd (S.left from.new)) }
        ensures cause { HasCause (S.faults from.old) (S.faults from.new) result }
        ensures beside { S.beside from.new ≡ S.beside from.old }
    {
        self.end = shift(&mut self.room, self.start, self.end);
        self.start = 0;
        match fill(from, &mut self.room, self.end) {
            Ok(count) => {
                self.end += count;
                Ok(count)
            }
            Err(Failed) => Err(Failed),
        }
    }
}
