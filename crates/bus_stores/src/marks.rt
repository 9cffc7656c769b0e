ghost use Rattle.std.specs.Prelude.{◌≡◌, [], ◌∷◌, ◌++◌, IfOk};
ghost use Rattle.bus_stores.specs.Memory.{last_mark};

use bus_types::{MarkText, NoMemory};
use std::alloc::Global;
use std::fmt::{Debug, Error, Formatter, Write};
use std::marker::Model;
use std::snapshot::Snapshot;

/// The marks that commits set, in order, which contracts see whole. It keeps the last one alone: of those before it, only
/// contracts remember.
#[derive(Drop)]
pub(crate) struct Marks {
    last: Option<MarkText>,
    before: Option<Snapshot<Marks>>,
}

impl Model for Marks {
    ghost use Rattle.std.specs.Prelude.{◌≡◌, ℕ, List, length, option_map, is_some};
    ghost use Rattle.std.proofs.Common.{arith, length-append};
    ghost use Rattle.bus_stores.specs.MarkHistory.{marks_after};

    ghost Value = { List (List ℕ) };

    ghost view = { λ m. marks_after (option_map (λ s. s.value) m.before) m.last };

    ghost invariant = { λ m. is_some m.before ≡ is_some m.last };

    ghost size = { λ marks. length marks };

    ghost size_decreases = { λ a h. Prim.grind (arith, length-append) };
}

impl Marks {
    /// No mark was set.
    pub fn new() -> Marks
        ensures { result ≡ [] }
    {
        Marks {
            last: None,
            before: None,
        }
    }

    /// One more was set.
    pub fn push(&mut self, mark: MarkText)
        ensures { self.new ≡ self.old ++ mark ∷ [] }
    {
        let before = Snapshot::of(self);
        *self = Marks {
            last: Some(mark),
            before: Some(before),
        };
    }

    /// A copy of the last one, where one was set.
    pub fn copy_last(&self, alloc: Global) -> Result<Option<MarkText>, NoMemory>
        ensures { IfOk result (λ mark. mark ≡ last_mark self.now) }
    {
        match &self.last {
            None => Ok(None),
            Some(mark) => Ok(Some(MarkText::new(alloc, mark.bytes())?)),
        }
    }
}

impl Debug for Marks {
    /// Writes the last mark, since no other is there to read.
    fn fmt<W: Write>(&self, f: &mut Formatter<W>) -> Result<(), Error> {
        self.last.fmt(f)
    }
}
