ghost use Rattle.std.specs.Prelude.{◌≡◌, ◌<◌, ◌++◌, ◌∷◌, [], length, MatchOption, Some, None};
ghost use Rattle.std.specs.List.{slice_get};

use bus_types::Timeline;
use ring_cells::Shown;
use std::marker::Model;

/// Up to four claims, in the order in which they were made. Contracts see the list of their entries.
#[derive(Drop)]
pub(crate) struct Four<'a, T: Timeline> {
    first: Option<Shown<'a, T>>,
    second: Option<Shown<'a, T>>,
    third: Option<Shown<'a, T>>,
    fourth: Option<Shown<'a, T>>,
}

impl<'a, T: Timeline> Model for Four<'a, T> {
    ghost use Rattle.std.specs.Prelude.{List};
    ghost use Rattle.ring_cells.specs.Entries.{Held};
    ghost use Rattle.range_ring.specs.Claims.{InOrder, joined};

    ghost Value = { List Held };

    ghost view = { λ f. joined f.first f.second f.third f.fourth };

    ghost invariant = { λ f. InOrder f.first f.second f.third f.fourth };
}

impl<'a, T: Timeline> Four<'a, T> {
    /// No claim.
    pub fn new() -> Four<'a, T>
        ensures { result ≡ [] }
    {
        Four {
            first: None,
            second: None,
            third: None,
            fourth: None,
        }
    }

    /// Adds a claim behind the others.
    pub fn push(&mut self, shown: Shown<'a, T>)
        requires { length self.old < 4 }
        ensures { self.new ≡ self.old ++ shown.entry ∷ [] }
    {
        if self.first.is_none() {
            self.first = Some(shown);
        } else if self.second.is_none() {
            self.second = Some(shown);
        } else if self.third.is_none() {
            self.third = Some(shown);
        } else {
            self.fourth = Some(shown);
        }
    }

    /// The claim at a place, from 0 on. `None` comes exactly past the last one.
    pub fn get(&self, place: u32) -> Option<&Shown<'a, T>>
        ensures { MatchOption result (slice_get self.now place ≡ None) (λ shown. slice_get self.now place ≡ Some shown.now) }
    {
        match place {
            0 => self.first.as_ref(),
            1 => self.second.as_ref(),
            2 => self.third.as_ref(),
            3 => self.fourth.as_ref(),
            _ => None,
        }
    }
}
