ghost use Rattle.std.specs.Prelude.{◌≡◌, [], ◌∷◌, ◌++◌};

use bus_types::Window;
use std::fmt::{Debug, Error, Formatter, Write};
use std::marker::Model;
use std::snapshot::Snapshot;

/// Windows that were let go, in order, which contracts alone see. It takes no memory, and no program can read it.
#[derive(Drop)]
pub(crate) struct Past {
    last: Option<Snapshot<Window>>,
    before: Option<Snapshot<Past>>,
}

impl Model for Past {
    ghost use Rattle.std.specs.Prelude.{◌≡◌, List, length, option_map, is_some};
    ghost use Rattle.std.proofs.Common.{arith, length-append};
    ghost use Rattle.bus_types.specs.Window.{Span};
    ghost use Rattle.source_db.specs.Queue.{past_after};

    ghost Value = { List Span };

    ghost view = { λ p. past_after (option_map (λ s. s.value) p.before) (option_map (λ s. s.value) p.last) };

    ghost invariant = { λ p. is_some p.before ≡ is_some p.last };

    ghost size = { λ ws. length ws };

    ghost size_decreases = { λ a h. Prim.grind (arith, length-append) };
}

impl Past {
    /// No window was let go.
    pub fn new() -> Past
        ensures { result ≡ [] }
    {
        Past {
            last: None,
            before: None,
        }
    }

    /// One more is let go.
    pub fn push(&mut self, window: &Window)
        ensures { self.new ≡ self.old ++ window.now ∷ [] }
    {
        let before = Snapshot::of(self);
        *self = Past {
            last: Some(Snapshot::of(window)),
            before: Some(before),
        };
    }
}

impl Debug for Past {
    /// Writes the type's name, since there is no window.
    fn fmt<W: Write>(&self, f: &mut Formatter<W>) -> Result<(), Error> {
        f.write_str("Past")
    }
}
