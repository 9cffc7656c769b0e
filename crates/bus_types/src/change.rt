ghost use Rattle.std.specs.Prelude.{◌≡◌, ◌+◌, ◌≤◌, IfOk};
ghost use Rattle.bus_types.specs.Change.{name_of, change_size, IsChange};
ghost use Rattle.bus_types.specs.declared.limits.TheConstants.{MAX_PAYLOAD};

use crate::fault::NoMemory;
use crate::payload::Payload;
use std::alloc::Global;

/// The key of a row within its source.
#[derive(Clone, Copy, Debug, PartialEq, Eq, PartialOrd, Ord)]
pub enum Key {
    /// A number.
    Long(u64),
}

/// What names a row: its source and its key. Names are in order of source, and then of key.
#[derive(Clone, Copy, Debug, PartialEq, Eq, PartialOrd, Ord)]
pub struct RowName {
    /// The source, as a table or a view of the database has its number.
    pub source: u16,
    /// The key within the source.
    pub key: Key,
}

/// A change of one row: the row's new bytes, or that it is gone.
#[derive(Debug, Drop)]
pub struct Change {
    /// The source of the row.
    pub source: u16,
    /// The key of the row within its source.
    pub key: Key,
    /// The row's bytes from now on, or `None` where the row is deleted.
    pub put: Option<Payload>,
}

impl Change {
    /// The name of the row that changes.
    pub fn name(&self) -> RowName
        ensures { result ≡ name_of self.now }
    {
        RowName {
            source: self.source,
            key: self.key,
        }
    }

    /// An equal change.
    pub fn copy(&self, alloc: Global) -> Result<Change, NoMemory>
        ensures { IfOk result (λ change. change ≡ self.now) }
    {
        let put = match &self.put {
            None => None,
            Some(payload) => Some(payload.copy(alloc)?),
        };
        Ok(Change {
            source: self.source,
            key: self.key,
            put,
        })
    }

    /// How many bytes the change takes on the wire, as an event.
    pub fn size(&self) -> u64
        ensures value { result ≡ change_size self.now }
        ensures small { result ≤ 23 + MAX_PAYLOAD }
        ensures fits { IsChange self.now }
    {
        let _source = self.source;
        let Key::Long(_key) = self.key;
        match &self.put {
            None => 23,
            Some(payload) => 23 + payload.bytes().len() as u64,
        }
    }
}
