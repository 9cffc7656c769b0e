ghost use Rattle.std.specs.Prelude.{◌≡◌, ◌+◌, ◌<◌, ◌^◌, ◌++◌, length, drop, MatchOption};
ghost use Rattle.scn_index.specs.Index.{AreAbove, AreBelow, IsGreatest};
ghost use Rattle.byte_ring.specs.Kept.{entry_of, dropped};

use scn_index::{ScnIndex, Steps};
use std::marker::Brand;
use std::sync::ledger::{Blank, Ledger};

/// How many windows stand behind one entry of the index.
pub(crate) const STRIDE: u64 = 16;

/// Notes the window of a number in the index, where it is the first of so many: the SCN before it, and its number.
pub(crate) fn note(index: &mut ScnIndex, scn: u64, number: u64)
    requires above { AreBelow scn index.old.entries }
    requires room { length index.old.entries < index.old.slots }
    ensures { index.new ≡ record { slots = index.old.slots; entries = index.old.entries ++ entry_of number scn } }
{
    if number % STRIDE == 0 {
        let _noted = index.push(scn, number);
    }
}

/// Forgets the window of a number, which is the oldest in the index, where it was noted.
pub(crate) fn forget(index: &mut ScnIndex, number: u64)
    ensures { index.new ≡ record { slots = index.old.slots; entries = drop (dropped number) index.old.entries } }
{
    if number % STRIDE == 0 {
        index.drop_front();
    }
}

/// The entry with the greatest SCN at or below one, if there is one.
pub(crate) fn find(index: &ScnIndex, scn: u64) -> Option<(u64, u64)>
    ensures { MatchOption result (AreAbove scn index.now.entries) (IsGreatest scn index.now.entries) }
{
    find_counted::<Brand>(index, scn, Blank::new(1))
}

fn find_counted<L: Ledger>(index: &ScnIndex, scn: u64, blank: Blank) -> Option<(u64, u64)>
    requires name { blank.name ≡ L.name }
    requires parts { blank.parts ≡ L.parts }
    requires some { 0 < blank.parts }
    ensures { MatchOption result (AreAbove scn index.now.entries) (IsGreatest scn index.now.entries) }
{
    let mut steps = Steps::<L>::new(blank);
    index.find(scn, &mut steps)
}
