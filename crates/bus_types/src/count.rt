ghost use Rattle.std.specs.Prelude.{◌≡◌, ◌+◌};

use std::fmt::{Debug, Error, Formatter, Write};
use std::marker::Model;
use std::snapshot::Snapshot;

/// A count that contracts alone see, such as how often something failed. It has no greatest value, since it keeps no number:
/// a raised count remembers what contracts saw before. It takes one byte, and no program can read it.
#[derive(Drop)]
pub struct Count {
    before: Option<Snapshot<Count>>,
}

impl Model for Count {
    ghost use Rattle.std.specs.Prelude.{ℕ, option_map};
    ghost use Rattle.std.proofs.Common.{arith};
    ghost use Rattle.bus_types.specs.Counting.{count_after};

    ghost Value = { ℕ };

    ghost view = { λ c. count_after (option_map (λ s. s.value) c.before) };

    ghost size = { λ n. n };

    ghost size_decreases = { λ a h. Prim.grind arith };
}

impl Count {
    /// The count of nothing.
    pub fn zero() -> Count
        ensures { result ≡ 0 }
    {
        Count { before: None }
    }

    /// Counts one more.
    pub fn raise(&mut self)
        ensures { self.new ≡ self.old + 1 }
    {
        let before = Snapshot::of(self);
        self.before = Some(before);
    }
}

impl Debug for Count {
    /// Writes the type's name, since there is no number.
    fn fmt<W: Write>(&self, f: &mut Formatter<W>) -> Result<(), Error> {
        f.write_str("Count")
    }
}
