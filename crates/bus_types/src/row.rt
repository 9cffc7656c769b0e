ghost use Rattle.std.specs.Prelude.{◌≡◌, map, IfOk};
ghost use Rattle.bus_types.specs.Rows.{pair_of};

use crate::change::Key;
use crate::fault::NoMemory;
use crate::payload::Payload;
use smallvec::SmallVec;
use std::alloc::Global;
use std::marker::Model;

/// How many bytes lie in a mark's text itself, without an allocation.
const INLINE: usize = 48;

/// A row of a table.
#[derive(Debug, Drop)]
pub struct Row {
    /// The source of the row.
    pub source: u16,
    /// The key of the row within its source.
    pub key: Key,
    /// The row's bytes.
    pub payload: Payload,
}

/// A place in a table, in order of source and key.
#[derive(Clone, Copy, Debug, PartialEq, Eq)]
pub enum Cursor {
    /// Before the first row.
    Start,
    /// Directly after the row of this name, whether there is one or not.
    After {
        /// The source of the row.
        source: u16,
        /// The key of the row within its source.
        key: Key,
    },
}

/// Rows in the order in which they were read. Contracts see the list of their names and payloads.
#[derive(Debug, Drop)]
pub struct Rows {
    items: Vec<Row>,
}

impl Model for Rows {
    ghost use Rattle.std.specs.Prelude.{List, ℕ, map};
    ghost use Rattle.bus_types.specs.declared.change.RowName.{RowName};
    ghost use Rattle.bus_types.specs.Rows.{pair_of};

    ghost Value = { List (RowName × List ℕ) };

    ghost view = { λ r. map pair_of r.items.items };
}

impl Rows {
    /// These rows, in this order.
    pub fn new(items: Vec<Row>) -> Rows
        ensures { result ≡ map pair_of items.items }
    {
        Rows { items }
    }

    /// The rows, in order.
    pub fn items(&self) -> &[Row]
        ensures { map pair_of result.now ≡ self.now }
    {
        &self.items
    }

    /// The rows, in order, without a copy.
    pub fn into_vec(self) -> Vec<Row>
        ensures { map pair_of result.items ≡ self }
    {
        self.items
    }
}

/// The text of a checkpoint, as a keeper stores it. Contracts see the list of its bytes.
#[derive(Debug, Drop)]
pub struct MarkText {
    bytes: SmallVec<u8, INLINE>,
}

impl Model for MarkText {
    ghost use Rattle.std.specs.Prelude.{List, ℕ};

    ghost Value = { List ℕ };

    ghost view = { λ m. m.bytes.items };
}

impl MarkText {
    /// A text of these bytes.
    pub fn new(alloc: Global, bytes: &[u8]) -> Result<MarkText, NoMemory>
        ensures { IfOk result (λ mark. mark ≡ bytes.now) }
    {
        Ok(MarkText {
            bytes: SmallVec::from_slice(alloc, bytes)?,
        })
    }

    /// Its bytes.
    pub fn bytes(&self) -> &[u8]
        ensures { result.now ≡ self.now }
    {
        self.bytes.as_slice()
    }
}
