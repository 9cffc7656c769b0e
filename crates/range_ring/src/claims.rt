ghost use Rattle.std.specs.Prelude.{◌≡◌, ◌<◌, ◌++◌, ◌∷◌, [], length, MatchOption, Some, None};
ghost use Rattle.std.specs.List.{slice_get};

use crate::four::Four;
use bus_types::Timeline;
use ring_cells::Shown;
use std::marker::Model;

/// Up to 32 claims, in the order in which they were made. Contracts see the list of their entries.
#[derive(Drop)]
pub(crate) struct Claims<'a, T: Timeline> {
    count: u32,
    first: Four<'a, T>,
    second: Four<'a, T>,
    third: Four<'a, T>,
    fourth: Four<'a, T>,
    fifth: Four<'a, T>,
    sixth: Four<'a, T>,
    seventh: Four<'a, T>,
    eighth: Four<'a, T>,
}

impl<'a, T: Timeline> Model for Claims<'a, T> {
    ghost use Rattle.std.specs.Prelude.{List, [], ◌∷◌};
    ghost use Rattle.ring_cells.specs.Entries.{Held};
    ghost use Rattle.range_ring.specs.Claims.{flat, Filled};

    ghost Value = { List Held };

    ghost view = { λ c. flat (c.first ∷ c.second ∷ c.third ∷ c.fourth ∷ c.fifth ∷ c.sixth ∷ c.seventh ∷ c.eighth ∷ []) };

    ghost invariant = { λ c. Filled c.count (c.first ∷ c.second ∷ c.third ∷ c.fourth ∷ c.fifth ∷ c.sixth ∷ c.seventh ∷ c.eighth ∷ []) };
}

impl<'a, T: Timeline> Claims<'a, T> {
    /// No claim.
    pub fn new() -> Claims<'a, T>
        ensures { result ≡ [] }
    {
        Claims {
            count: 0,
            first: Four::new(),
            second: Four::new(),
            third: Four::new(),
            fourth: Four::new(),
            fifth: Four::new(),
            sixth: Four::new(),
            seventh: Four::new(),
            eighth: Four::new(),
        }
    }

    /// How many there are.
    pub fn count(&self) -> u32
        ensures { result ≡ length self.now }
    {
        self.count
    }

    /// Adds a claim behind the others.
    pub fn push(&mut self, shown: Shown<'a, T>)
        requires { length self.old < 32 }
        ensures { self.new ≡ self.old ++ shown.entry ∷ [] }
    {
        let part = self.count / 4;
        self.count += 1;
        match part {
            0 => self.first.push(shown),
            1 => self.second.push(shown),
            2 => self.third.push(shown),
            3 => self.fourth.push(shown),
            4 => self.fifth.push(shown),
            5 => self.sixth.push(shown),
            6 => self.seventh.push(shown),
            _ => self.eighth.push(shown),
        }
    }

    /// The claim at a place, from 0 on. `None` comes exactly past the last one.
    pub fn get(&self, place: u32) -> Option<&Shown<'a, T>>
        requires { place < 32 }
        ensures { MatchOption result (slice_get self.now place ≡ None) (λ shown. slice_get self.now place ≡ Some shown.now) }
    {
        let within = place % 4;
        match place / 4 {
            0 => self.first.get(within),
            1 => self.second.get(within),
            2 => self.third.get(within),
            3 => self.fourth.get(within),
            4 => self.fifth.get(within),
            5 => self.sixth.get(within),
            6 => self.seventh.get(within),
            7 => self.eighth.get(within),
            _ => None,
        }
    }
}
