ghost use Rattle.std.specs.Prelude.{◌≡◌, ◌≤◌, ◌⊎◌, if◌then◌else◌, ◌++◌, length, IfSome, MatchOption, Some, None, option_map};
ghost use Rattle.bus_types.specs.declared.limits.TheConstants.{MAX_SCN};
ghost use Rattle.event_codec.specs.Frames.{run_of, closing_bytes};
ghost use Rattle.event_codec.specs.Reading.{closing_with, closing_front};
ghost use Rattle.event_codec.specs.Parsing.{close_of, closing_in_front};

use crate::number::u64_at;
use bus_types::MAX_SCN;

/// The bytes of a closing frame.
pub const CLOSING_SIZE: usize = 10;

/// A closing frame: it ends the rows or the changes of a reply.
#[derive(Clone, Copy, Debug, PartialEq, Eq)]
pub struct Close {
    /// 4 for rows, 5 for changes.
    pub kind: u8,
    /// The SCN that they have come to, at most 2^63 - 1.
    pub scn: u64,
    /// Whether a row or a change is left behind them.
    pub more: bool,
}

// The byte that says whether an item is left.
fn flag(more: bool) -> u8
    ensures { result ≡ if more then 1 else 0 }
{
    if more { 1 } else { 0 }
}

/// The bytes of the frame that ends a run of rows, kind 4, or of changes, kind 5: the SCN that the run has come to, and
/// whether an item is left behind it.
pub fn close_bytes(kind: u8, scn: u64, more: bool) -> [u8; 10]
    requires kind { (kind ≡ 4) ⊎ (kind ≡ 5) }
    requires scn { scn ≤ MAX_SCN }
    ensures { result ≡ closing_bytes (record { run = run_of kind; scn = scn; more = more }) }
{
    let n = scn.to_be_bytes();
    [
        kind,
        n[0],
        n[1],
        n[2],
        n[3],
        n[4],
        n[5],
        n[6],
        n[7],
        flag(more),
    ]
}

// The frame of a kind, an SCN and a flag.
fn closing_with(kind: u8, scn: u64, flag: u8) -> Option<Close>
    ensures value { option_map close_of result ≡ closing_with kind scn flag }
    ensures kind { IfSome result (λ close. (close.kind ≡ 4) ⊎ (close.kind ≡ 5)) }
{
    if scn > MAX_SCN || flag > 1 {
        return None;
    }
    let more = flag == 1;
    match kind {
        4 => Some(Close { kind: 4, scn, more }),
        5 => Some(Close { kind: 5, scn, more }),
        _ => None,
    }
}

impl Close {
    // The closing frame that bytes begin with.
    #[tactic(auto, unfolding(crate::specs::Reading::closing_front))]
    fn front(bytes: &[u8]) -> Option<Close>
        ensures value { option_map close_of result ≡ closing_front bytes.now }
        ensures long { IfSome result (λ _. 10 ≤ length bytes.now) }
        ensures kind { IfSome result (λ close. (close.kind ≡ 4) ⊎ (close.kind ≡ 5)) }
    {
        if bytes.len() < CLOSING_SIZE {
            return None;
        }
        closing_with(bytes[0], u64_at(bytes, 1), bytes[9])
    }

    /// The closing frame that bytes begin with, and the bytes behind it. `None` comes exactly where none stands there
    /// whole.
    pub fn split(bytes: &[u8]) -> Option<(Close, &[u8])>
        ensures found { MatchOption result (closing_in_front bytes.now ≡ None) (λ x. closing_in_front bytes.now ≡ Some (close_of x.0, x.1.now)) }
        ensures kind { IfSome result (λ x. (x.0.kind ≡ 4) ⊎ (x.0.kind ≡ 5)) }
        ensures parts { IfSome result (λ x. bytes.now ≡ closing_bytes (close_of x.0) ++ x.1.now) }
        ensures scn { IfSome result (λ x. x.0.scn ≤ MAX_SCN) }
    {
        let close = Close::front(bytes)?;
        let (_own, behind) = bytes.split_at(CLOSING_SIZE);
        Some((close, behind))
    }
}
