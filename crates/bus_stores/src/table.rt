ghost use Rattle.std.specs.Prelude.{◌≡◌, [], IfOk, OnOk, OnErr, if◌then◌else◌};
ghost use Rattle.bus_types.specs.Rows.{page_of, IsPage};
ghost use Rattle.bus_types.specs.Table.{rows_after, payload_at};
ghost use Rattle.bus_stores.specs.Keeper.{IsTable};

use crate::entries::{self, Entries};
use bus_types::{Change, Cursor, NoMemory, Payload, RowName, Rows};
use std::alloc::Global;
use std::marker::Model;

/// Rows in order of name. Contracts see the list of them.
#[derive(Debug, Drop)]
pub(crate) struct Table {
    entries: Entries,
}

impl Model for Table {
    ghost use Rattle.bus_types.specs.Table.{RowList};
    ghost use Rattle.bus_stores.specs.Entries.{rows_in};

    ghost Value = { RowList };

    ghost view = { λ t. rows_in t.entries.entries };
}

impl Table {
    /// A table without rows.
    pub fn new(alloc: Global) -> Table
        ensures { result ≡ [] }
    {
        Table {
            entries: Entries::new(alloc),
        }
    }

    /// Makes the changes in order, on an empty table where `clear` is true. After want of memory the rows are as before.
    pub fn change(
        &mut self,
        alloc: Global,
        clear: bool,
        changes: &mut [Change],
    ) -> Result<(), NoMemory>
        ensures ok { OnOk result (self.new ≡ rows_after (if clear then [] else self.old) changes.old) }
        ensures err { OnErr result (self.new ≡ self.old) }
    {
        if clear {
            return self.replace(alloc, changes);
        }
        entries::change(alloc, &mut self.entries, changes)
    }

    // The rows that the changes make on an empty table take the place of these.
    fn replace(&mut self, alloc: Global, changes: &mut [Change]) -> Result<(), NoMemory>
        ensures ok { OnOk result (self.new ≡ rows_after [] changes.old) }
        ensures err { OnErr result (self.new ≡ self.old) }
    {
        let mut fresh = Entries::new(alloc);
        entries::change(alloc, &mut fresh, changes)?;
        self.entries = fresh;
        Ok(())
    }

    /// The first `max` rows after the cursor, or those there are.
    pub fn page(&self, alloc: Global, cursor: &Cursor, max: usize) -> Result<Rows, NoMemory>
        ensures rows { IfOk result (λ rows. rows ≡ page_of cursor.now max self.now) }
        ensures page { IfOk result (λ rows. IsPage cursor.now max rows) }
        ensures ordered { IsTable self.now }
    {
        Ok(Rows::new(entries::page(alloc, &self.entries, cursor, max)?))
    }

    /// The payload of a row, where there is one.
    pub fn payload(&self, alloc: Global, name: &RowName) -> Result<Option<Payload>, NoMemory>
        ensures { IfOk result (λ payload. payload ≡ payload_at self.now name.now) }
    {
        entries::payload(alloc, &self.entries, name)
    }
}
