ghost use Rattle.std.specs.Prelude.{◌≡◌, ◌+◌, ◌≤◌, ℕ, IfSome, IfNone};
ghost use Rattle.bus_types.specs.declared.limits.TheConstants.{MAX_SCN};
ghost use Rattle.event_codec.specs.declared.answer.Answer.{Answer};
ghost use Rattle.event_codec.specs.Bytes.{StandsAt};
ghost use Rattle.event_codec.specs.Frames.{answer_kind, answer_number, IsAnswer, answer_bytes};
ghost use Rattle.event_codec.specs.Reading.{answer_of, answer_front};

use crate::number::{tail, u64_at};
use bus_types::MAX_SCN;

// The bytes of an answer.
const ANSWER_SIZE: usize = 9;

/// What is answered where no window, row or change is sent. Each number is at most 2^63 - 1 in an answer that is written
/// or read.
#[derive(Clone, Copy, Debug, PartialEq, Eq)]
pub enum Answer {
    /// What was asked for is evicted: the SCN of the newest evicted window.
    NotFound(u64),
    /// Nothing is new: the SCN of the newest published window, or 0.
    Empty(u64),
    /// The limit is too small for the first item: the bytes that it needs.
    TooSmall(u64),
    /// A bootstrap isn't that far: the SCN that it has come to.
    Behind(u64),
    /// The log of a bootstrap begins later: the SCN where it begins.
    LogGone(u64),
    /// The SCN that a delta goes to.
    StartDelta(u64),
    /// The SCN where a snapshot begins.
    StartSnapshot(u64),
    /// The SCN that a catch-up goes to.
    Target(u64),
}

// The first byte of an answer.
fn kind_of(answer: &Answer) -> u8
    ensures { result ≡ answer_kind answer.now }
{
    match answer {
        Answer::NotFound(_) => 32,
        Answer::Empty(_) => 33,
        Answer::TooSmall(_) => 34,
        Answer::Behind(_) => 35,
        Answer::LogGone(_) => 36,
        Answer::StartDelta(_) => 37,
        Answer::StartSnapshot(_) => 38,
        Answer::Target(_) => 39,
    }
}

// The number of an answer.
fn number_of(answer: &Answer) -> u64
    ensures { result ≡ answer_number answer.now }
{
    match *answer {
        Answer::NotFound(number) => number,
        Answer::Empty(number) => number,
        Answer::TooSmall(number) => number,
        Answer::Behind(number) => number,
        Answer::LogGone(number) => number,
        Answer::StartDelta(number) => number,
        Answer::StartSnapshot(number) => number,
        Answer::Target(number) => number,
    }
}

/// The bytes of an answer.
pub fn answer_bytes(answer: &Answer) -> [u8; 9]
    requires { answer_number answer.now ≤ MAX_SCN }
    ensures { result ≡ answer_bytes answer.now }
{
    let kind = kind_of(answer);
    let n = number_of(answer).to_be_bytes();
    [kind, n[0], n[1], n[2], n[3], n[4], n[5], n[6], n[7]]
}

// The answer of a kind, with its number.
fn answer_of(kind: u8, number: u64) -> Option<Answer>
    ensures { result ≡ answer_of kind number }
{
    match kind {
        32 => Some(Answer::NotFound(number)),
        33 => Some(Answer::Empty(number)),
        34 => Some(Answer::TooSmall(number)),
        35 => Some(Answer::Behind(number)),
        36 => Some(Answer::LogGone(number)),
        37 => Some(Answer::StartDelta(number)),
        38 => Some(Answer::StartSnapshot(number)),
        39 => Some(Answer::Target(number)),
        _ => None,
    }
}

// The answer that bytes begin with.
#[tactic(auto, unfolding(crate::specs::Reading::answer_front))]
fn front(bytes: &[u8]) -> Option<Answer>
    ensures { result ≡ answer_front bytes.now }
{
    if bytes.len() < ANSWER_SIZE {
        return None;
    }
    let number = u64_at(bytes, 1);
    if number > MAX_SCN {
        return None;
    }
    answer_of(bytes[0], number)
}

/// The answer that begins at a place, in 9 bytes. `None` comes exactly where no answer stands there whole.
pub fn answer_at(bytes: &[u8], place: usize) -> Option<Answer>
    ensures found { IfSome result (λ answer. IsAnswer answer × StandsAt bytes.now place (answer_bytes answer) (place + 9)) }
    ensures none { IfNone result ((answer : Answer) (next : ℕ) → IsAnswer answer → StandsAt bytes.now place (answer_bytes answer) next → ⊥) }
{
    front(tail(bytes, place))
}
