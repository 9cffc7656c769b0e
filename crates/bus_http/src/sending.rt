ghost use Rattle.std.specs.Prelude.{◌≡◌, OnOk, OnErr};
ghost use Rattle.std.specs.Io.KnownBytes.{Appends};
ghost use Rattle.bus_types.specs.Causes.{HasCause};
ghost use Rattle.bus_http.specs.Replies.{reply_head, refusal};
ghost use Rattle.bus_http.specs.Talks.{reply_text};
ghost use Rattle.bus_http.specs.Sent.{WroteFront};

use crate::reply::{Refused, write_refusal, write_reply_head};
use bus_io::{Sink, WriteFault, write_all};
use bus_types::Failed;

/// Writes an answer whose body stands whole. After `Failed`, which comes only where the sink's count rose, a front of it was
/// written.
pub fn send_reply<W: Sink>(out: &mut W, body: &[u8]) -> Result<(), Failed>
    ensures ok { OnOk result (Appends (W.written out.old) (W.written out.new) (reply_text body.now)) }
    ensures part { OnErr result (WroteFront (W.written out.old) (W.written out.new) (reply_text body.now)) }
    ensures beside { W.beside out.new ≡ W.beside out.old }
    ensures cause { HasCause (W.faults out.old) (W.faults out.new) result }
{
    let Ok(()) = send_head(out, body.len() as u64) else {
        return Err(Failed);
    };
    let Ok(()) = send(out, body) else {
        return Err(Failed);
    };
    Ok(())
}

/// Writes the answer that refuses a request. `Failed` comes only where the sink's count rose.
pub(crate) fn send_refusal<W: Sink>(out: &mut W, refused: Refused) -> Result<(), Failed>
    ensures ok { OnOk result (Appends (W.written out.old) (W.written out.new) (refusal refused)) }
    ensures part { OnErr result (WroteFront (W.written out.old) (W.written out.new) (refusal refused)) }
    ensures beside { W.beside out.new ≡ W.beside out.old }
    ensures cause { HasCause (W.faults out.old) (W.faults out.new) result }
{
    match write_refusal(out, refused) {
        Ok(()) => Ok(()),
        Err(WriteFault { .. }) => Err(Failed),
    }
}

/// Writes a text, or a part of one, from where it stands. After `Failed`, which comes only where the sink's count rose, a front
/// of it was written that isn't the whole.
pub fn send<W: Sink>(out: &mut W, text: &[u8]) -> Result<(), Failed>
    ensures ok { OnOk result (Appends (W.written out.old) (W.written out.new) text.now) }
    ensures part { OnErr result (WroteFront (W.written out.old) (W.written out.new) text.now) }
    ensures beside { W.beside out.new ≡ W.beside out.old }
    ensures cause { HasCause (W.faults out.old) (W.faults out.new) result }
{
    match write_all(out, text) {
        Ok(()) => Ok(()),
        Err(WriteFault { .. }) => Err(Failed),
    }
}

/// Writes the head of an answer whose body has so many bytes, which are to be written behind it. After `Failed`, which comes only
/// where the sink's count rose, a front of it was written that isn't the whole.
pub fn send_head<W: Sink>(out: &mut W, size: u64) -> Result<(), Failed>
    ensures ok { OnOk result (Appends (W.written out.old) (W.written out.new) (reply_head size)) }
    ensures part { OnErr result (WroteFront (W.written out.old) (W.written out.new) (reply_head size)) }
    ensures beside { W.beside out.new ≡ W.beside out.old }
    ensures cause { HasCause (W.faults out.old) (W.faults out.new) result }
{
    match write_reply_head(out, size) {
        Ok(()) => Ok(()),
        Err(WriteFault { .. }) => Err(Failed),
    }
}
