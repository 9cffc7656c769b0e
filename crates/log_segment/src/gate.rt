ghost use Rattle.std.specs.Prelude.{◌∷◌, [], ◌+◌, ◌≤◌, ◌<◌, ◌^◌, length, IfSome};
ghost use Rattle.log_segment.specs.Gate.{WritesLasting, CutsLasting, PutsBehind};

use bus_types::Failed;
use log_disk::Disk;

/// An open gate. Each other byte is a closed one.
pub(crate) const OPEN: u8 = 0xA5;

// A gate that isn't open.
const CLOSED: u8 = 0;

/// Writes a text at a place and makes it lasting.
#[tactic(auto, using(crate::proofs::Gates::lasting))]
pub(crate) fn write_lasting<D: Disk>(disk: &mut D, place: u64, text: &[u8]) -> Result<(), Failed>
    requires { IfSome (D.state disk.old).seen (λ bytes. place ≤ length bytes) }
    ensures { WritesLasting place text.now (D.state disk.old) (D.state disk.new) result }
{
    match disk.write_at(place, text) {
        Ok(()) => disk.sync(),
        Err(fault) => Err(fault),
    }
}

// Writes a body and a closed gate, together a text, behind a gate at a place, and makes them lasting.
fn stage<D: Disk>(disk: &mut D, place: u64, text: &[u8]) -> Result<(), Failed>
    requires place { IfSome (D.state disk.old).seen (λ bytes. place + 1 ≤ length bytes) }
    requires range { place + 1 < 2 ^ 64 }
    ensures { WritesLasting (place + 1) text.now (D.state disk.old) (D.state disk.new) result }
{
    write_lasting(disk, place + 1, text)
}

// Opens a gate and makes that lasting.
fn open_gate<D: Disk>(disk: &mut D, place: u64) -> Result<(), Failed>
    requires { IfSome (D.state disk.old).seen (λ bytes. place ≤ length bytes) }
    ensures { WritesLasting place (165 ∷ []) (D.state disk.old) (D.state disk.new) result }
{
    write_lasting(disk, place, &[OPEN])
}

/// Closes the first gate of a disk and makes that lasting.
pub(crate) fn close_first<D: Disk>(disk: &mut D) -> Result<(), Failed>
    ensures { WritesLasting 0 (0 ∷ []) (D.state disk.old) (D.state disk.new) result }
{
    write_lasting(disk, 0, &[CLOSED])
}

/// Puts a body and a closed gate, together a text, behind a closed gate at a place, and then opens that gate. Each of the
/// two is made lasting before what comes next.
pub(crate) fn put_behind<D: Disk>(disk: &mut D, place: u64, text: &[u8]) -> Result<(), Failed>
    requires place { IfSome (D.state disk.old).seen (λ bytes. place + 1 ≤ length bytes) }
    requires range { place + 1 < 2 ^ 64 }
    ensures { PutsBehind place text.now (D.state disk.old) (D.state disk.new) result }
{
    match stage(disk, place, text) {
        Ok(()) => open_gate(disk, place),
        Err(fault) => Err(fault),
    }
}

/// Cuts a disk to a length and makes that lasting.
#[tactic(auto, using(crate::proofs::Gates::cutting))]
pub(crate) fn cut_lasting<D: Disk>(disk: &mut D, len: u64) -> Result<(), Failed>
    requires { IfSome (D.state disk.old).seen (λ bytes. len ≤ length bytes) }
    ensures { CutsLasting len (D.state disk.old) (D.state disk.new) result }
{
    match disk.cut(len) {
        Ok(()) => disk.sync(),
        Err(fault) => Err(fault),
    }
}
