ghost use Rattle.std.specs.Prelude.{◌≡◌, ◌+◌, ◌≤◌, ◌<◌, ◌++◌, [], length, drop, IfOk, OnOk, IfSome};
ghost use Rattle.bus_types.specs.Causes.{Rose};
ghost use Rattle.log_segment.specs.Looking.{Looks, OnReadFailed, ReadsOn};

use bus_types::{Failed, NoMemory};
use log_disk::Disk;
use std::alloc::Global;
use std::marker::Model;

/// The most bytes that a disk is asked for at once.
pub(crate) const PIECE: usize = 65_536;

/// Why a disk was not read.
pub(crate) enum ReadFault {
    /// The disk failed.
    Failed,
    /// Memory ran out.
    NoMemory,
}

/// Bytes of a disk that were read and not yet taken. Contracts see those bytes.
#[derive(Drop)]
pub(crate) struct Ahead {
    bytes: Vec<u8>,
    // The place behind those that were taken.
    at: usize,
}

impl Model for Ahead {
    ghost use Rattle.std.specs.Prelude.{ℕ, List, ◌≤◌, length, drop};

    ghost Value = { List ℕ };

    ghost view = { λ a. drop a.at a.bytes.items };

    ghost invariant = { λ a. a.at ≤ length a.bytes.items };
}

impl Ahead {
    /// None.
    pub fn new(alloc: Global) -> Ahead
        ensures { result ≡ [] }
    {
        Ahead {
            bytes: Vec::new(alloc),
            at: 0,
        }
    }

    /// All of them.
    pub fn bytes(&self) -> &[u8]
        ensures { result.now ≡ self.now }
    {
        &self.bytes[self.at..]
    }

    /// Takes so many.
    pub fn skip(&mut self, count: usize)
        requires { count ≤ length self.old }
        ensures { self.new ≡ drop count self.old }
    {
        self.at += count;
    }

    /// Puts more behind them.
    pub fn append(&mut self, piece: &[u8]) -> Result<(), NoMemory>
        ensures { OnOk result (self.new ≡ self.old ++ piece.now) }
    {
        self.bytes.drain(..self.at);
        self.at = 0;
        self.bytes.extend_from_slice(piece)?;
        Ok(())
    }
}

// So many zeros.
fn zeros(alloc: Global, count: usize) -> Result<Vec<u8>, NoMemory>
    ensures { IfOk result (λ zeros. length zeros.items ≡ count) }
{
    Ok(vec![in alloc; 0; count]?)
}

/// Reads bytes of a disk, up to an end and at most so many, behind those that were read ahead from a place on. It answers how many
/// they are; none where all up to the end were read.
pub(crate) fn read_on<D: Disk>(
    alloc: Global,
    disk: &mut D,
    end: u64,
    place: u64,
    most: usize,
    ahead: &mut Ahead,
) -> Result<usize, ReadFault>
    requires place { place + length ahead.old ≤ end }
    requires some { 0 < most }
    ensures looks { Looks (D.state disk.old) (D.state disk.new) }
    ensures failed { OnReadFailed result (Rose (D.state disk.old).faults (D.state disk.new).faults) }
    ensures within { IfOk result (λ count. place + length ahead.new ≤ end) }
    ensures more { IfOk result (λ count. length ahead.new ≡ length ahead.old + count) }
    ensures told { IfOk result (λ count. IfSome (D.state disk.old).seen
        (λ bytes. end ≤ length bytes → ReadsOn place end count bytes ahead.old ahead.new)) }
{
    let next = place + ahead.bytes().len() as u64;
    let Ok(mut piece) = zeros(alloc, most) else {
        return Err(ReadFault::NoMemory);
    };
    let Ok(count) = disk.read(next, &mut piece) else {
        return Err(ReadFault::Failed);
    };
    let count = count.min((end - next) as usize);
    let Ok(()) = ahead.append(&piece[..count]) else {
        return Err(ReadFault::NoMemory);
    };
    Ok(count)
}
