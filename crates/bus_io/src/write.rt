ghost use Rattle.std.specs.Prelude.{◌≡◌, ◌<◌, length, take, OnOk, OnErr, IfErr, IfSome};
ghost use Rattle.std.specs.Io.KnownBytes.{Appends};
ghost use Rattle.bus_types.specs.Causes.{HasCause};
ghost use Rattle.bus_io.specs.Bytes.{RoomLeft};

use crate::sink::Sink;
use bus_types::Failed;

/// A sink failed before all bytes went out.
#[derive(Clone, Copy, Debug, PartialEq, Eq)]
pub struct WriteFault {
    /// How many bytes went out: the first ones, and no others.
    pub written: u64,
}

/// Writes all the bytes. A fault comes only where the sink's count rose, and tells how many bytes went out before it.
/// None comes where the sink has room for the bytes.
#[tactic(auto, using(crate::proofs::Known::known))]
pub fn write_all<W: Sink>(out: &mut W, bytes: &[u8]) -> Result<(), WriteFault>
    ensures ok { OnOk result (Appends (W.written out.old) (W.written out.new) bytes.now) }
    ensures part { IfErr result (λ fault. Appends (W.written out.old) (W.written out.new) (take fault.written bytes.now)) }
    ensures short { IfErr result (λ fault. fault.written < length bytes.now) }
    ensures full { OnErr result (IfSome (W.room out.old) (λ n. n < length bytes.now)) }
    ensures room { OnOk result (RoomLeft (W.room out.old) (W.room out.new) (length bytes.now)) }
    ensures beside { W.beside out.new ≡ W.beside out.old }
    ensures cause { HasCause (W.faults out.old) (W.faults out.new) result }
{
    let mut done = 0;
    while done < bytes.len() {
        match out.write(&bytes[done..]) {
            Ok(count) => done += count,
            Err(Failed) => {
                return Err(WriteFault {
                    written: done as u64,
                });
            }
        }
    }
    Ok(())
}
