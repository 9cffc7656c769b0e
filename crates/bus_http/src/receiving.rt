ghost use Rattle.std.specs.Prelude.{◌≡◌, ◌≤◌, ◌<◌, length, take, drop, min, IfOk, IfErr, OnErr};
ghost use Rattle.std.specs.Io.KnownBytes.{IsAtEnd};
ghost use Rattle.bus_types.specs.Causes.{Rose, HasCause};
ghost use Rattle.bus_http.specs.Inbox.{Draws, Drew};
ghost use Rattle.bus_http.specs.Answers.{Gave, IsSourceFault};
ghost use Rattle.bus_http.specs.Receiving.{TookBody, TookAnswer};

use crate::answer::{AnswerFault, body_size};
use crate::coming::{Coming, read_to_end};
use crate::inbox::{Inbox, fill};
use bus_io::Source;
use bus_types::{Failed, NoMemory};

// Takes as many bytes as are held and there is room for to the front of the room, and answers how many.
fn take_held(inbox: &mut Inbox, room: &mut [u8]) -> usize
    ensures count { result ≡ min (length room.old) (length inbox.old) }
    ensures front { take result room.new ≡ take result inbox.old }
    ensures size { length room.new ≡ length room.old }
    ensures rest { inbox.new ≡ drop result inbox.old }
{
    let held = inbox.held();
    let count = room.len().min(held.len());
    room[..count].copy_from_slice(&held[..count]);
    inbox.skip(count);
    count
}

// Reads behind so many bytes of the room until it is full or the input has ended, and answers how many bytes it has then.
fn fill_up<S: Source>(from: &mut S, room: &mut [u8], used: usize) -> Result<usize, Failed>
    requires { used ≤ length room.old }
    ensures draws { IfOk result (λ count. Draws (S.left from.old) (S.left from.new) (S.given from.old) (S.given from.new)
        (take used room.old) (take count room.new)) }
    ensures within { IfOk result (λ count. count ≤ length room.new) }
    ensures size { length room.new ≡ length room.old }
    ensures ended { IfOk result (λ count. count < length room.new → IsAtEnd (S.left from.new)) }
    ensures failed { OnErr result (Drew (S.left from.old) (S.left from.new) (S.given from.old) (S.given from.new)) }
    ensures cause { HasCause (S.faults from.old) (S.faults from.new) result }
    ensures beside { S.beside from.new ≡ S.beside from.old }
{
    let mut count = used;
    while count < room.len() {
        match fill(from, room, count) {
            Ok(0) => return Ok(count),
            Ok(more) => count += more,
            Err(Failed) => return Err(Failed),
        }
    }
    Ok(count)
}

// Makes so many bytes of a vector, in place of what it held.
fn make_room(body: &mut Vec<u8>, size: usize) -> Result<(), NoMemory>
    ensures { IfOk result (λ _. length body.new.items ≡ size) }
{
    body.clear();
    body.resize(size, 0)?;
    Ok(())
}

// Takes a body as long as the room.
fn take_body<S: Source>(inbox: &mut Inbox, from: &mut S, room: &mut [u8]) -> Result<(), AnswerFault>
    ensures took { TookBody (S.left from.old) (S.left from.new) (S.given from.old) (S.given from.new)
        (length room.old) inbox.old result inbox.new room.new }
    ensures size { length room.new ≡ length room.old }
    ensures later { S.faults from.old ≤ S.faults from.new }
    ensures failed { IfErr result (λ fault. IsSourceFault fault → Rose (S.faults from.old) (S.faults from.new)) }
    ensures beside { S.beside from.new ≡ S.beside from.old }
{
    let used = take_held(inbox, room);
    match fill_up(from, room, used) {
        Ok(count) if count == room.len() => Ok(()),
        Ok(_) => Err(AnswerFault::BadAnswer),
        Err(Failed) => Err(AnswerFault::ReadFault),
    }
}

// Takes an answer whose head has so many bytes.
fn take_answer<S: Source>(
    inbox: &mut Inbox,
    from: &mut S,
    body: &mut Vec<u8>,
    end: usize,
) -> Result<(), AnswerFault>
    requires { end ≤ length inbox.old }
    ensures took { TookAnswer (S.left from.old) (S.left from.new) (S.given from.old) (S.given from.new)
        end inbox.old result inbox.new body.new.items }
    ensures later { S.faults from.old ≤ S.faults from.new }
    ensures failed { IfErr result (λ fault. IsSourceFault fault → Rose (S.faults from.old) (S.faults from.new)) }
    ensures beside { S.beside from.new ≡ S.beside from.old }
{
    let Some(size) = body_size(inbox.front(end)) else {
        return Err(AnswerFault::BadAnswer);
    };
    let Ok(()) = make_room(body, size as usize) else {
        return Err(AnswerFault::NoMemory);
    };
    inbox.skip(end);
    take_body(inbox, from, body)
}

/// Reads the answer at the front of what the inbox holds and the source gives, and puts its body into the vector, in place of what
/// that held. What was read beyond the answer stays in the inbox. `BadAnswer` comes exactly where the bytes don't begin with a head
/// of at most 16,384 bytes and 64 header lines, with the status 200 and one `Content-Length` of at most 16,777,216, and so many
/// bytes; `ReadFault` only where the source's count rose. After `NoMemory` nothing of the answer was taken. After a fault the
/// vector holds nothing of use.
pub fn read_answer<S: Source>(
    inbox: &mut Inbox,
    from: &mut S,
    body: &mut Vec<u8>,
) -> Result<(), AnswerFault>
    ensures gave { Gave (S.left from.old) (S.left from.new) (S.given from.old) (S.given from.new) inbox.old result inbox.new body.new.items }
    ensures later { S.faults from.old ≤ S.faults from.new }
    ensures failed { IfErr result (λ fault. IsSourceFault fault → Rose (S.faults from.old) (S.faults from.new)) }
    ensures beside { S.beside from.new ≡ S.beside from.old }
{
    match read_to_end(inbox, from) {
        Ok(Coming::Whole(end)) => take_answer(inbox, from, body, end),
        Ok(Coming::TooLong) => Err(AnswerFault::BadAnswer),
        Ok(Coming::Ended) => Err(AnswerFault::BadAnswer),
        Err(Failed) => Err(AnswerFault::ReadFault),
    }
}
