ghost use Rattle.std.specs.Prelude.{◌≡◌, ◌+◌, ◌<◌, ◌≤◌, ◌++◌, List, length, IfOk, OnOk, OnErr, vec_len, vec_capacity};
ghost use Rattle.bus_types.specs.declared.limits.TheConstants.{MAX_SCN};
ghost use Rattle.bus_types.specs.Relay.{answer_of, stream, StandsFor};
ghost use Rattle.bus_types.specs.Window.{Span};
ghost use Rattle.partition_filter.specs.Selection.{test_of};
ghost use Rattle.event_codec.specs.Frames.{answer_number, answer_bytes};
ghost use Rattle.event_codec.specs.Reply.{IsServed, IsInRange, reply_bytes, answer_sent};

use crate::buffer::Buffer;
use bus_io::GrowingSink;
use bus_types::NoMemory;
use event_codec::{Answer, Served, answer_bytes};
use partition_filter::Filter;
use std::alloc::Global;
use std::mem;

/// Appends the bytes of the relay's reply to who asks for the windows after `scn` that the filter leaves, in at most `max`
/// bytes: the windows, or the answer that says why there are none. After want of memory the reply is as before.
pub fn relay_answer<B: Buffer>(
    alloc: Global,
    buffer: &B,
    scn: u64,
    filter: &Filter,
    max: u32,
    reply: &mut Vec<u8>,
) -> Result<Served, NoMemory>
    ensures served { IfOk result (λ served. IsServed served (answer_of (B.relay buffer.now) scn (test_of filter.now) max)) }
    ensures bytes { OnOk result (reply.new.items ≡ reply.old.items ++ reply_bytes (answer_of (B.relay buffer.now) scn (test_of filter.now) max)) }
    ensures err { OnErr result (reply.new.items ≡ reply.old.items) }
    ensures full { OnErr result (vec_capacity reply.old < vec_len reply.old + length
        (reply_bytes (answer_of (B.relay buffer.now) scn (test_of filter.now) max))) }

    // Over each timeline that the buffer stands for, the answer and its bytes are those by the rule of a relay.
    ensures rule { IfOk result (λ served. (ws : List Span) → StandsFor ws (B.relay buffer.now)
        → IsServed served (stream ws (B.relay buffer.now).floor (B.relay buffer.now).tail scn (test_of filter.now) max)) }
    ensures rule_bytes { OnOk result ((ws : List Span) → StandsFor ws (B.relay buffer.now)
        → reply.new.items ≡ reply.old.items ++ reply_bytes (stream ws (B.relay buffer.now).floor (B.relay buffer.now).tail scn
        (test_of filter.now) max)) }
{
    let before = reply.len();
    let mut sink = GrowingSink::new(mem::replace(reply, Vec::new(alloc)));
    let served = buffer.serve(scn, filter, max, &mut sink);
    *reply = sink.into_bytes();
    let Ok(served) = served else {
        reply.truncate(before);
        return Err(NoMemory);
    };
    let Ok(()) = append_answer(served, reply) else {
        reply.truncate(before);
        return Err(NoMemory);
    };
    Ok(served)
}

// Appends the answer, where no windows were served.
fn append_answer(served: Served, reply: &mut Vec<u8>) -> Result<(), NoMemory>
    requires { IsInRange served }
    ensures ok { OnOk result (reply.new.items ≡ reply.old.items ++ answer_sent served) }
    ensures err { OnErr result (reply.new.items ≡ reply.old.items) }
    ensures full { OnErr result (vec_capacity reply.old < vec_len reply.old + length (answer_sent served)) }
{
    match served {
        Served::Windows { .. } => Ok(()),
        Served::NotFound(floor) => append(&Answer::NotFound(floor), reply),
        Served::Empty(end) => append(&Answer::Empty(end), reply),
        Served::TooSmall(need) => append(&Answer::TooSmall(need), reply),
    }
}

fn append(answer: &Answer, reply: &mut Vec<u8>) -> Result<(), NoMemory>
    requires { answer_number answer.now ≤ MAX_SCN }
    ensures ok { OnOk result (reply.new.items ≡ reply.old.items ++ answer_bytes answer.now) }
    ensures err { OnErr result (reply.new.items ≡ reply.old.items) }
    ensures full { OnErr result (vec_capacity reply.old < vec_len reply.old + length (answer_bytes answer.now)) }
{
    let bytes = answer_bytes(answer);
    reply.reserve(bytes.len())?;
    append_within(&bytes, reply);
    Ok(())
}

// Appends bytes for which there is room.
fn append_within(bytes: &[u8], reply: &mut Vec<u8>)
    requires { vec_len reply.old + length bytes.now ≤ vec_capacity reply.old }
    ensures { reply.new.items ≡ reply.old.items ++ bytes.now }
{
    reply.extend_from_slice(bytes).unwrap();
}
