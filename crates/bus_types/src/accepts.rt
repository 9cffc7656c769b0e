ghost use Rattle.std.specs.Prelude.{◌≡◌};
ghost use Rattle.bus_types.specs.Change.{Test};

use crate::change::Key;

/// Which rows are meant, as a filter says it: by source and key alone.
pub trait Accepts {
    /// The test.
    ghost test: { Self → Test };

    /// Whether the row of this source and key is meant.
    fn accepts(&self, source: u16, key: &Key) -> bool
        ensures { result ≡ test self.now source key.now };
}

/// Means every row.
#[derive(Clone, Copy, Debug, PartialEq, Eq)]
pub struct Everything;

impl Accepts for Everything {
    ghost use Rattle.bus_types.specs.View.{everything};

    ghost test = { λ _. everything };

    fn accepts(&self, _source: u16, _key: &Key) -> bool {
        true
    }
}
