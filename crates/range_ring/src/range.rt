ghost use Rattle.std.specs.Prelude.{◌≡◌, ◌<◌, ◌≤◌, ◌+◌, ◌^◌, List, ◌++◌, ◌∷◌, [], length, drop, MatchOption, IfSome, IfOk, IfErr};
ghost use Rattle.bus_types.specs.declared.limits.TheConstants.{MAX_WINDOW};
ghost use Rattle.bus_types.specs.Window.{Span};
ghost use Rattle.event_codec.specs.Parsing.{AreWindows};
ghost use Rattle.range_ring.specs.Ranges.{IsGathered, IsSmall};
ghost use Rattle.range_ring.specs.Parts.{bytes_at, IsPlace, IsPart};

use crate::claim::{cell_of, claim_in, next_cell};
use crate::claims::Claims;
use crate::cutting::cut_size;
use crate::part::{Part, part_of};
use crate::ring::Ring;
use bus_types::{Accepts, Timeline};
use ring_cells::Shown;
use std::marker::Model;

/// Windows of a ring that follow each other, at most 32, which are read in place while this lives, and a filter of their
/// events. No thread replaces them meanwhile. Contracts see the filter, the entries, and the bytes that are left of them.
#[derive(Drop)]
pub struct Range<'r, T: Timeline, F: Accepts> {
    claims: Claims<'r, T>,
    filter: &'r F,
    size: u64,
}

impl<'r, T: Timeline, F: Accepts> Model for Range<'r, T, F> {
    ghost use Rattle.std.specs.Prelude.{◌≤◌, length};
    ghost use Rattle.range_ring.specs.Ranges.{RangeIs};

    ghost Value = { RangeIs F };

    ghost view = { λ r. record { filter = r.filter.now; entries = r.claims; size = r.size } };

    ghost invariant = { λ r. length r.claims ≤ 32 };
}

impl<'r, T: Timeline, F: Accepts> Range<'r, T, F> {
    // A first window, of which a filter leaves so many bytes.
    fn new(first: Shown<'r, T>, filter: &'r F, size: u64) -> Range<'r, T, F>
        ensures { result ≡ record { filter = filter.now; entries = first.entry ∷ []; size = size } }
    {
        let mut claims = Claims::new();
        claims.push(first);
        Range {
            claims,
            filter,
            size,
        }
    }

    // Adds the next window, of which the filter leaves so many bytes.
    fn push(&mut self, shown: Shown<'r, T>, size: u64)
        requires few { length self.old.entries < 32 }
        requires small { self.old.size + size < 2 ^ 64 }
        ensures { self.new ≡ record self.old { entries = self.old.entries ++ shown.entry ∷ []; size = self.old.size + size } }
    {
        self.claims.push(shown);
        self.size += size;
    }

    /// How many windows there are, from 1 to 32.
    pub fn count(&self) -> u32
        ensures { result ≡ length self.now.entries }
    {
        self.claims.count()
    }

    /// The position behind that of its last window. Contracts see nothing of it.
    pub(crate) fn past(&self) -> u64 {
        let last = self.count().saturating_sub(1);
        match self.claims.get(last) {
            Some(shown) => shown.position().saturating_add(1),
            None => 0,
        }
    }

    /// The bytes that the filter leaves of them.
    pub fn size(&self) -> u64
        ensures { result ≡ self.now.size }
    {
        self.size
    }

    /// The whole bytes of the window at a place, from 0 on, where it stands.
    pub fn window(&self, i: u32) -> &[u8]
        requires { i < length self.now.entries }
        ensures value { result.now ≡ bytes_at self.now.entries i }
        ensures begins { IsPlace (bytes_at self.now.entries i) 0 }
    {
        let Some(shown) = self.claims.get(i) else {
            unreachable!();
        };
        shown.bytes()
    }

    /// The next items of a window from a place in it on that the filter keeps, as long as they stand one after the other.
    /// The place is 0, or behind an earlier part of the same window. `None` comes exactly where none is left.
    pub fn part(&self, i: u32, place: usize) -> Option<Part<'_>>
        requires within { i < length self.now.entries }
        requires place { IsPlace (bytes_at self.now.entries i) place }
        ensures next { IfSome result (λ part. IsPlace (bytes_at self.now.entries i) part.next) }
        ensures part { (items : List Span) → AreWindows items (drop place (bytes_at self.now.entries i)) → MatchOption result (items ≡ []) (λ part. IsPart (F.test self.now.filter) (bytes_at self.now.entries i) items part.bytes.now part.next) }
    {
        part_of(self.window(i), self.filter, place)
    }

    /// Gives all claims back, as dropping it does.
    pub fn end(self) {
        drop(self);
    }
}

/// Claims the windows behind the first one, up to the one before a position, while there are less than 32 and their cuts
/// fit. `None` comes where the ring went on meanwhile. The fault is the size of the first cut, which doesn't fit.
pub(crate) fn gather<'r, T: Timeline, F: Accepts>(
    ring: &'r Ring<T>,
    first: Shown<'r, T>,
    filter: &'r F,
    published: u64,
    max: u64,
) -> Option<Result<Range<'r, T, F>, u64>>
    requires { first.position < published }
    ensures range { IfSome result (λ r. IfOk r (λ range. (range.filter ≡ filter.now) × IsGathered T.told first.entry.position published (F.test filter.now) max range.entries range.size)) }
    ensures small { IfSome result (λ r. IfErr r (λ need. IsSmall T.told first.entry.position (F.test filter.now) max need)) }
    ensures within { IfSome result (λ r. IfErr r (λ need. need ≤ MAX_WINDOW)) }
{
    let mut position = first.position() + 1;
    let size = cut_size(&first, filter);
    if size > max {
        return Some(Err(size));
    }
    let mut range = Range::new(first, filter, size);
    let mut cell = cell_of(ring, position);
    while range.count() < 32 && position < published {
        let shown = claim_in(ring, cell, position)?;
        let more = cut_size(&shown, filter);
        if more > max - range.size {
            return Some(Ok(range));
        }
        range.push(shown, more);
        cell = next_cell(ring, cell);
        position += 1;
    }
    Some(Ok(range))
}
