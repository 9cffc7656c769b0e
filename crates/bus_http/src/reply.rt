ghost use Rattle.std.specs.Prelude.{◌≡◌, ◌+◌, ◌≤◌, ◌<◌, ◌++◌, length, take, decimal, OnOk, OnErr, IfErr, IfSome};
ghost use Rattle.std.specs.Io.KnownBytes.{Appends};
ghost use Rattle.bus_types.specs.Causes.{HasCause};
ghost use Rattle.bus_io.specs.Bytes.{RoomLeft};
ghost use Rattle.bus_http.specs.Talks.{status_of};
ghost use Rattle.bus_http.specs.Replies.{reply_front, head_close, reply_head, refusal};

use bus_io::{Sink, WriteFault, write_all};
use itoa::Buffer;

/// Why a request is not answered, as the peer is told it.
#[derive(Clone, Copy, Debug, PartialEq, Eq)]
pub enum Refused {
    /// 400: the head is bad, or a parameter is.
    BadRequest,
    /// 404: there is no such path.
    NotFound,
    /// 405: the method isn't GET, which is the one that is allowed.
    MethodNotAllowed,
    /// 431: the head is too long.
    HeadTooLarge,
    /// 500: what answers has failed.
    ServerError,
}

impl Refused {
    /// Its status.
    pub fn status(self) -> u16
        ensures { result ≡ status_of self }
    {
        match self {
            Refused::BadRequest => 400,
            Refused::NotFound => 404,
            Refused::MethodNotAllowed => 405,
            Refused::HeadTooLarge => 431,
            Refused::ServerError => 500,
        }
    }
}

// The most bytes of a reply's head.
const MOST: usize = 128;

#[tactic(auto, unfolding(crate::specs::Replies::reply_front))]
fn reply_front() -> &'static [u8]
    ensures value { result.now ≡ reply_front }
    ensures size { length reply_front ≡ 73 }
{
    b"HTTP/1.1 200 OK\r\nContent-Type: application/octet-stream\r\nContent-Length: "
}

#[tactic(auto, unfolding(crate::specs::Replies::head_close))]
fn head_close() -> &'static [u8]
    ensures value { result.now ≡ head_close }
    ensures size { length head_close ≡ 4 }
{
    b"\r\n\r\n"
}

// Puts a text at a place, and answers the place behind it.
fn put(room: &mut [u8], place: usize, text: &[u8]) -> usize
    requires { place + length text.now ≤ length room.old }
    ensures end { result ≡ place + length text.now }
    ensures text { take result room.new ≡ take place room.old ++ text.now }
{
    let end = place + text.len();
    room[place..end].copy_from_slice(text);
    end
}

// Puts the head of a reply of so many bytes to the front, and answers its length.
fn put_reply_head(room: &mut [u8], size: u64) -> usize
    requires { length room.old ≡ 128 }
    ensures head { take result room.new ≡ reply_head size }
    ensures within { result ≤ length room.new }
{
    let mut digits = Buffer::new();
    let front = put(room, 0, reply_front());
    let middle = put(room, front, digits.format(size).as_bytes());
    put(room, middle, head_close())
}

/// Writes the head of an answer whose body is the reply of so many bytes. It takes no memory. A fault comes only where the
/// sink's count rose, and tells how many bytes of the head went out before it.
pub fn write_reply_head<W: Sink>(out: &mut W, size: u64) -> Result<(), WriteFault>
    ensures ok { OnOk result (Appends (W.written out.old) (W.written out.new) (reply_head size)) }
    ensures part { IfErr result (λ fault. Appends (W.written out.old) (W.written out.new) (take fault.written (reply_head size))) }
    ensures short { IfErr result (λ fault. fault.written < length (reply_head size)) }
    ensures full { OnErr result (IfSome (W.room out.old) (λ n. n < length (reply_head size))) }
    ensures room { OnOk result (RoomLeft (W.room out.old) (W.room out.new) (length (reply_head size))) }
    ensures beside { W.beside out.new ≡ W.beside out.old }
    ensures cause { HasCause (W.faults out.old) (W.faults out.new) result }
{
    let mut room = [0; MOST];
    let end = put_reply_head(&mut room, size);
    write_all(out, &room[..end])
}

#[tactic(auto, unfolding(crate::specs::Replies::refusal))]
fn refusal(refused: Refused) -> &'static [u8]
    ensures { result.now ≡ refusal refused }
{
    match refused {
        Refused::BadRequest =>
            b"HTTP/1.1 400 Bad Request\r\nContent-Length: 0\r\nConnection: close\r\n\r\n",
        Refused::NotFound =>
            b"HTTP/1.1 404 Not Found\r\nContent-Length: 0\r\nConnection: close\r\n\r\n",
        Refused::MethodNotAllowed => {
            b"HTTP/1.1 405 Method Not Allowed\r\nAllow: GET\r\nContent-Length: 0\r\nConnection: close\r\n\r\n"
        }
        Refused::HeadTooLarge => {
            b"HTTP/1.1 431 Request Header Fields Too Large\r\nContent-Length: 0\r\nConnection: close\r\n\r\n"
        }
        Refused::ServerError => {
            b"HTTP/1.1 500 Internal Server Error\r\nContent-Length: 0\r\nConnection: close\r\n\r\n"
        }
    }
}

/// Writes the answer that refuses a request, after which the connection is closed. It takes no memory. A fault comes only where
/// the sink's count rose, and tells how many bytes of it went out before.
pub fn write_refusal<W: Sink>(out: &mut W, refused: Refused) -> Result<(), WriteFault>
    ensures ok { OnOk result (Appends (W.written out.old) (W.written out.new) (refusal refused)) }
    ensures part { IfErr result (λ fault. Appends (W.written out.old) (W.written out.new) (take fault.written (refusal refused))) }
    ensures short { IfErr result (λ fault. fault.written < length (refusal refused)) }
    ensures full { OnErr result (IfSome (W.room out.old) (λ n. n < length (refusal refused))) }
    ensures room { OnOk result (RoomLeft (W.room out.old) (W.room out.new) (length (refusal refused))) }
    ensures beside { W.beside out.new ≡ W.beside out.old }
    ensures cause { HasCause (W.faults out.old) (W.faults out.new) result }
{
    write_all(out, refusal(refused))
}
