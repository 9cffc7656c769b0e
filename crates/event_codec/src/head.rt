ghost use Rattle.std.specs.Prelude.{◌≡◌, ◌≤◌, length, IfSome};
ghost use Rattle.event_codec.specs.Head.{spelled};
ghost use Rattle.event_codec.specs.Reading.{head_front, head_of, is_sized};

use crate::number::{u16_at, u32_at, u64_at};
use bus_types::{MAX_PAYLOAD, MAX_SCN};

// The bytes of an event before its payload.
pub(crate) const HEAD_SIZE: usize = 23;

// The kind of a put.
pub(crate) const PUT: u8 = 1;

// The kind of a delete.
pub(crate) const DELETE: u8 = 2;

// The front of an event: its payload of len bytes follows.
#[derive(Clone, Copy)]
pub(crate) struct Head {
    pub kind: u8,
    pub source: u16,
    pub scn: u64,
    pub key: u64,
    pub len: u32,
}

// Whether an event of this kind may have a payload of that many bytes.
fn is_sized(kind: u8, len: u32) -> bool
    ensures { result ≡ is_sized kind len }
{
    (kind == PUT && len as usize <= MAX_PAYLOAD) || (kind == DELETE && len == 0)
}

impl Head {
    pub(crate) fn new(kind: u8, source: u16, scn: u64, key: u64, len: u32) -> Head
        ensures { result ≡ record { kind = kind; source = source; scn = scn; key = key; len = len } }
    {
        Head {
            kind,
            source,
            scn,
            key,
            len,
        }
    }

    // What stands in the first bytes, in range or not.
    fn of(bytes: &[u8]) -> Head
        requires { HEAD_SIZE ≤ length bytes.now }
        ensures { result ≡ head_of bytes.now }
    {
        Head {
            kind: bytes[0],
            source: u16_at(bytes, 1),
            scn: u64_at(bytes, 3),
            key: u64_at(bytes, 11),
            len: u32_at(bytes, 19),
        }
    }

    // The head that bytes begin with.
    #[tactic(auto, unfolding(crate::specs::Reading::head_front))]
    pub(crate) fn read(bytes: &[u8]) -> Option<Head>
        ensures value { result ≡ head_front bytes.now }
        ensures long { IfSome result (λ _. HEAD_SIZE ≤ length bytes.now) }
    {
        if bytes.len() < HEAD_SIZE {
            return None;
        }
        let head = Head::of(bytes);
        if head.scn == 0 || head.scn > MAX_SCN {
            return None;
        }
        if !is_sized(head.kind, head.len) {
            return None;
        }
        Some(head)
    }

    // Its bytes.
    pub(crate) fn bytes(&self) -> [u8; HEAD_SIZE]
        ensures { result ≡ spelled self.now }
    {
        let source = self.source.to_be_bytes();
        let scn = self.scn.to_be_bytes();
        let key = self.key.to_be_bytes();
        let len = self.len.to_be_bytes();
        [
            self.kind, source[0], source[1], scn[0], scn[1], scn[2], scn[3], scn[4], scn[5],
            scn[6], scn[7], key[0], key[1], key[2], key[3], key[4], key[5], key[6], key[7], len[0],
            len[1], len[2], len[3],
        ]
    }
}
