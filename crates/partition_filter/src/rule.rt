ghost use Rattle.std.specs.Prelude.{◌≡◌, true, None, IfOk};
ghost use Rattle.partition_filter.specs.Rising.{rises};

use bus_types::NoMemory;
use std::alloc::Global;
use std::marker::Model;

/// Numbers in strictly rising order. Contracts see the list of them.
#[derive(Debug, Drop)]
pub struct Numbers {
    items: Vec<u64>,
}

impl Model for Numbers {
    ghost use Rattle.std.specs.Prelude.{◌≡◌, ℕ, true, List, None};
    ghost use Rattle.partition_filter.specs.Rising.{rises};

    ghost Value = { List ℕ };

    ghost view = { λ n. n.items.items };

    ghost invariant = { λ n. rises None n.items.items ≡ true };
}

impl Numbers {
    // These numbers.
    pub(crate) fn new(items: Vec<u64>) -> Numbers
        requires { rises None items.items ≡ true }
        ensures { result ≡ items.items }
    {
        Numbers { items }
    }

    // Equal numbers.
    fn copy(&self, alloc: Global) -> Result<Numbers, NoMemory>
        ensures { IfOk result (λ numbers. numbers ≡ self.now) }
    {
        Ok(Numbers {
            items: Vec::from_slice(alloc, &self.items)?,
        })
    }

    /// The numbers, in order.
    pub fn items(&self) -> &[u64]
        ensures value { result.now ≡ self.now }
        ensures rising { rises None self.now ≡ true }
    {
        &self.items
    }
}

/// Which keys of a source are meant.
#[derive(Debug, Drop)]
pub enum Keys {
    /// Every one.
    Every,
    /// Those whose remainder is listed.
    Remainder {
        /// What the key is divided by: 1 to 65,536.
        by: u32,
        /// The remainders: 1 to 64 of them, each below `by`.
        listed: Numbers,
    },
    /// Those whose quotient, rounded down, is listed.
    Quotient {
        /// What the key is divided by: at least 1.
        by: u64,
        /// The quotients: 1 to 64 of them.
        listed: Numbers,
    },
}

impl Keys {
    // Equal keys.
    fn copy(&self, alloc: Global) -> Result<Keys, NoMemory>
        ensures { IfOk result (λ keys. keys ≡ self.now) }
    {
        match self {
            Keys::Every => Ok(Keys::Every),
            Keys::Remainder { by, listed } => Ok(Keys::Remainder {
                by: *by,
                listed: listed.copy(alloc)?,
            }),
            Keys::Quotient { by, listed } => Ok(Keys::Quotient {
                by: *by,
                listed: listed.copy(alloc)?,
            }),
        }
    }
}

/// Which rows of one source are meant.
#[derive(Debug, Drop)]
pub struct Rule {
    /// The source.
    pub source: u16,
    /// The keys that are meant.
    pub keys: Keys,
}

impl Rule {
    // An equal rule.
    pub(crate) fn copy(&self, alloc: Global) -> Result<Rule, NoMemory>
        ensures { IfOk result (λ rule. rule ≡ self.now) }
    {
        Ok(Rule {
            source: self.source,
            keys: self.keys.copy(alloc)?,
        })
    }
}
