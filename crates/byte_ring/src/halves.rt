ghost use Rattle.std.specs.Prelude.{◌≡◌, ◌+◌, ◌-◌, ◌≤◌, ◌++◌, [], length, take, drop, slice_index, IfSome};
ghost use Rattle.std.specs.Int.{w16, w32, w64};
ghost use Rattle.event_codec.specs.Reading.{number_at};

use std::marker::Model;

/// The bytes of a circle where they stand: those up to the end of its block, and those that go on at its start. Contracts
/// see all of them in order.
#[derive(Debug, Drop)]
pub(crate) struct Halves<'a> {
    front: &'a [u8],
    back: &'a [u8],
}

impl<'a> Model for Halves<'a> {
    ghost use Rattle.std.specs.Prelude.{ℕ, List, ◌++◌};

    ghost Value = { List ℕ };

    ghost view = { λ h. h.front.now ++ h.back.now };
}

impl<'a> Halves<'a> {
    /// These bytes, one after the other.
    #[inline(always)]
    pub fn new(front: &'a [u8], back: &'a [u8]) -> Halves<'a>
        ensures { result ≡ front.now ++ back.now }
    {
        Halves { front, back }
    }

    /// How many they are.
    pub fn len(&self) -> usize
        ensures { result ≡ length self.now }
    {
        self.front.len() + self.back.len()
    }

    /// So many bytes from a place on, in two parts where they go on at the start of the block.
    #[inline(always)]
    pub fn part(&self, from: usize, count: usize) -> (&'a [u8], &'a [u8])
        requires { from + count ≤ length self.now }
        ensures { result.0.now ++ result.1.now ≡ take count (drop from self.now) }
    {
        let (front, back) = (self.front, self.back);
        let end = from + count;
        if end <= front.len() {
            return (&front[from..end], &[]);
        }
        if from >= front.len() {
            let from = from - front.len();
            return (&back[from..from + count], &[]);
        }
        (&front[from..], &back[..end - front.len()])
    }

    // The byte at a place.
    fn byte(&self, at: usize) -> u8
        requires { at + 1 ≤ length self.now }
        ensures { result ≡ slice_index self.now at }
    {
        if at < self.front.len() {
            self.front[at]
        } else {
            self.back[at - self.front.len()]
        }
    }

    // So many bytes from a place on, where they stand in one part.
    #[inline(always)]
    fn whole(&self, from: usize, count: usize) -> Option<&'a [u8]>
        requires { from + count ≤ length self.now }
        ensures { IfSome result (λ part. part.now ≡ take count (drop from self.now)) }
    {
        let (front, back) = (self.front, self.back);
        let end = from + count;
        if end <= front.len() {
            return Some(&front[from..end]);
        }
        if from >= front.len() {
            let from = from - front.len();
            return Some(&back[from..from + count]);
        }
        None
    }

    // The number of two bytes at a place, byte by byte.
    #[cold]
    #[tactic(auto, using(event_codec::proofs::Numbers::numbers))]
    fn torn_short(&self, at: usize) -> u16
        requires { at + 2 ≤ length self.now }
        ensures { result ≡ number_at w16 at self.now }
    {
        let _within = self.len();
        u16::from_be_bytes([self.byte(at), self.byte(at + 1)])
    }

    // The number of four bytes at a place, byte by byte.
    #[cold]
    #[tactic(auto, using(event_codec::proofs::Numbers::numbers))]
    fn torn_word(&self, at: usize) -> u32
        requires { at + 4 ≤ length self.now }
        ensures { result ≡ number_at w32 at self.now }
    {
        let _within = self.len();
        u32::from_be_bytes([
            self.byte(at),
            self.byte(at + 1),
            self.byte(at + 2),
            self.byte(at + 3),
        ])
    }

    // The number of eight bytes at a place, byte by byte.
    #[cold]
    #[tactic(auto, using(event_codec::proofs::Numbers::numbers))]
    fn torn_long(&self, at: usize) -> u64
        requires { at + 8 ≤ length self.now }
        ensures { result ≡ number_at w64 at self.now }
    {
        let _within = self.len();
        u64::from_be_bytes([
            self.byte(at),
            self.byte(at + 1),
            self.byte(at + 2),
            self.byte(at + 3),
            self.byte(at + 4),
            self.byte(at + 5),
            self.byte(at + 6),
            self.byte(at + 7),
        ])
    }

    /// The number of two bytes at a place.
    #[inline(always)]
    #[tactic(auto, using(crate::proofs::Standing::number_whole))]
    pub fn short(&self, at: usize) -> u16
        requires { at + 2 ≤ length self.now }
        ensures { result ≡ number_at w16 at self.now }
    {
        match self.whole(at, 2) {
            Some(part) => short_of(part),
            None => self.torn_short(at),
        }
    }

    /// The number of four bytes at a place.
    #[inline(always)]
    #[tactic(auto, using(crate::proofs::Standing::number_whole))]
    pub fn word(&self, at: usize) -> u32
        requires { at + 4 ≤ length self.now }
        ensures { result ≡ number_at w32 at self.now }
    {
        match self.whole(at, 4) {
            Some(part) => word_of(part),
            None => self.torn_word(at),
        }
    }

    /// The number of eight bytes at a place.
    #[inline(always)]
    #[tactic(auto, using(crate::proofs::Standing::number_whole))]
    pub fn long(&self, at: usize) -> u64
        requires { at + 8 ≤ length self.now }
        ensures { result ≡ number_at w64 at self.now }
    {
        match self.whole(at, 8) {
            Some(part) => long_of(part),
            None => self.torn_long(at),
        }
    }
}

// The number of two bytes.
#[inline(always)]
#[tactic(auto, using(event_codec::proofs::Numbers::numbers))]
fn short_of(bytes: &[u8]) -> u16
    requires { 2 ≤ length bytes.now }
    ensures { result ≡ number_at w16 0 bytes.now }
{
    u16::from_be_bytes([bytes[0], bytes[1]])
}

// The number of four bytes.
#[inline(always)]
#[tactic(auto, using(event_codec::proofs::Numbers::numbers))]
fn word_of(bytes: &[u8]) -> u32
    requires { 4 ≤ length bytes.now }
    ensures { result ≡ number_at w32 0 bytes.now }
{
    u32::from_be_bytes([bytes[0], bytes[1], bytes[2], bytes[3]])
}

// The number of eight bytes.
#[inline(always)]
#[tactic(auto, using(event_codec::proofs::Numbers::numbers))]
fn long_of(bytes: &[u8]) -> u64
    requires { 8 ≤ length bytes.now }
    ensures { result ≡ number_at w64 0 bytes.now }
{
    u64::from_be_bytes([
        bytes[0], bytes[1], bytes[2], bytes[3], bytes[4], bytes[5], bytes[6], bytes[7],
    ])
}
