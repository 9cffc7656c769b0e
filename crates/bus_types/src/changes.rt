ghost use Rattle.std.specs.Prelude.{◌≡◌};

use crate::change::Change;
use std::marker::Model;

/// Changes in order. Contracts see the list of them.
#[derive(Debug, Drop)]
pub struct Changes {
    items: Vec<Change>,
}

impl Model for Changes {
    ghost use Rattle.std.specs.Prelude.{List};
    ghost use Rattle.bus_types.specs.declared.change.Change.{Change};

    ghost Value = { List Change };

    ghost view = { λ c. c.items.items };
}

impl Changes {
    /// These changes, in this order.
    pub fn new(items: Vec<Change>) -> Changes
        ensures { result ≡ items.items }
    {
        Changes { items }
    }

    /// The changes, in order.
    pub fn items(&self) -> &[Change]
        ensures { result.now ≡ self.now }
    {
        &self.items
    }

    /// The changes, in order, with their memory.
    pub fn into_vec(self) -> Vec<Change>
        ensures { result.items ≡ self }
    {
        let Changes { items } = self;
        items
    }
}
