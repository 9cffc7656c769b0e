ghost use Rattle.std.specs.Prelude.{◌≡◌, ◌+◌, ◌≤◌, ◌<◌, ◌^◌, ◌++◌, ℕ, List, length, IfSome, IfNone};
ghost use Rattle.bus_http.specs.Ending.{seen_after, ends_with, end_after};

/// What the last bytes of a head's front were.
#[derive(Clone, Copy, Debug, PartialEq, Eq)]
pub(crate) enum Seen {
    /// CR and LF alone, or nothing.
    Front,
    /// Another byte came, and no LF that an empty line may follow is at hand.
    Inside,
    /// A LF behind which an empty line may follow.
    LineFeed,
    /// Such a LF and a CR.
    Return,
}

impl Seen {
    // Whether this byte ends the head.
    fn ends_with(self, byte: u8) -> bool
        ensures { result ≡ ends_with self byte }
    {
        match self {
            Seen::Front | Seen::Inside => false,
            Seen::LineFeed | Seen::Return => byte == b'\n',
        }
    }

    // What was seen with this byte, which doesn't end the head.
    fn after(self, byte: u8) -> Seen
        ensures { result ≡ seen_after self byte }
    {
        match self {
            Seen::Front => {
                if byte == b'\n' || byte == b'\r' {
                    Seen::Front
                } else {
                    Seen::Inside
                }
            }
            Seen::Inside => {
                if byte == b'\n' {
                    Seen::LineFeed
                } else {
                    Seen::Inside
                }
            }
            Seen::LineFeed => {
                if byte == b'\r' {
                    Seen::Return
                } else {
                    Seen::Inside
                }
            }
            Seen::Return => Seen::Inside,
        }
    }
}

/// The length of the head that ends in these bytes, of which so many came before them; where none ends there, `seen`
/// moves on behind them.
pub(crate) fn find_end(seen: &mut Seen, place: usize, bytes: &[u8]) -> Option<usize>
    requires { place + length bytes.now < 2 ^ 64 }
    ensures some { (rest : List ℕ) → IfSome result (λ end. end_after place seen.old (bytes.now ++ rest) ≡ Some end) }
    ensures within { IfSome result (λ end. end ≤ place + length bytes.now) }
    ensures none { (rest : List ℕ) → IfNone result (end_after place seen.old (bytes.now ++ rest)
        ≡ end_after (place + length bytes.now) seen.new rest) }
{
    for (i, byte) in bytes.iter().enumerate() {
        if seen.ends_with(*byte) {
            return Some(place + i + 1);
        }
        *seen = seen.after(*byte);
    }
    None
}
