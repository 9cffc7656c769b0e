ghost use Rattle.std.specs.Prelude.{◌≡◌, [], ◌∷◌, ◌++◌};

use bus_types::Window;
use std::marker::Model;
use std::snapshot::Snapshot;

/// Windows that were published, in order, which contracts alone see. It takes no memory, and no program can read it.
#[derive(Drop)]
pub(crate) struct Past {
    last: Option<Snapshot<Window>>,
    before: Option<Snapshot<Past>>,
}

impl Model for Past {
    ghost use Rattle.std.specs.Prelude.{◌≡◌, List, length, option_map, is_some};
    ghost use Rattle.std.proofs.Common.{arith, length-append};
    ghost use Rattle.bus_types.specs.Window.{Span};
    ghost use Rattle.relay_node.specs.Pieces.{list_after};

    ghost Value = { List Span };

    ghost view = { λ p. list_after (option_map (λ s. s.value) p.before) (option_map (λ s. s.value) p.last) };

    ghost invariant = { λ p. is_some p.before ≡ is_some p.last };

    ghost size = { λ ws. length ws };

    ghost size_decreases = { λ a h. Prim.grind (arith, length-append) };
}

impl Past {
    /// No window was published.
    pub fn new() -> Past
        ensures { result ≡ [] }
    {
        Past {
            last: None,
            before: None,
        }
    }

    /// One more was published.
    pub fn push(&mut self, window: &Window)
        ensures { self.new ≡ self.old ++ window.now ∷ [] }
    {
        let before = Snapshot::of(self);
        *self = Past {
            last: Some(Snapshot::of(window)),
            before: Some(before),
        };
    }
}
