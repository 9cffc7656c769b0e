ghost use Rattle.std.specs.Prelude.{◌≡◌, ◌≤◌, length, IfOk};
ghost use Rattle.bus_types.specs.Causes.{HasCause};
ghost use Rattle.bus_http.specs.Inbox.{Draws, Comes};

use crate::ending::{Seen, find_end};
use crate::inbox::{Inbox, MAX_HEAD};
use bus_io::Source;
use bus_types::Failed;

/// What came of a head.
#[derive(Clone, Copy, Debug, PartialEq, Eq)]
pub(crate) enum Coming {
    /// All of it, in so many bytes.
    Whole(usize),
    /// As many bytes as it has at most, and not its end.
    TooLong,
    /// The input ended before its end.
    Ended,
}

/// Reads until the inbox holds the whole of the head at its front, or can't. No byte is looked at twice.
pub(crate) fn read_to_end<S: Source>(inbox: &mut Inbox, from: &mut S) -> Result<Coming, Failed>
    ensures draws { Draws (S.left from.old) (S.left from.new) (S.given from.old) (S.given from.new) inbox.old inbox.new }
    ensures comes { IfOk result (λ coming. Comes coming inbox.new (S.left from.new)) }
    ensures short { length inbox.new ≤ 16384 }
    ensures cause { HasCause (S.faults from.old) (S.faults from.new) result }
    ensures beside { S.beside from.new ≡ S.beside from.old }
{
    let mut seen = Seen::Front;
    let mut place = 0;
    loop {
        if let Some(end) = find_end(&mut seen, place, inbox.behind(place)) {
            return Ok(Coming::Whole(end));
        }
        place = inbox.held().len();
        if place == MAX_HEAD {
            return Ok(Coming::TooLong);
        }
        match inbox.read_more(from) {
            Ok(0) => return Ok(Coming::Ended),
            Ok(_) => {}
            Err(Failed) => return Err(Failed),
        }
    }
}
