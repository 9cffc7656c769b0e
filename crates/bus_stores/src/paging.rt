ghost use Rattle.std.specs.Prelude.{◌≡◌, ◌<◌, ◌^◌, ◌++◌, map, length, IfOk, OnOk, IfSome};
ghost use Rattle.bus_types.specs.Rows.{pair_of, last_from, RiseAfter};
ghost use Rattle.bus_types.specs.declared.row.Cursor.TheVariants.{Start};
ghost use Rattle.bus_types.specs.Causes.{WasCounted};
ghost use Rattle.bus_stores.specs.Keeper.{Reads, BothTold, IsTable};

use crate::keeper::{Keeper, StoreFault};
use bus_types::{Cursor, NoMemory, Row, Rows};
use std::alloc::Global;

/// How many rows are asked for at a time.
const PAGE: usize = 256;

/// All rows of a keeper, in order of source and key, whatever number of pages they take.
pub fn all_rows<K: Keeper>(alloc: Global, keeper: &mut K) -> Result<Rows, StoreFault>
    ensures read { Reads (λ c. c.rows) (K.state keeper.old) (K.state keeper.new) result }
    ensures ordered { OnOk result (IfSome (K.state keeper.new).content (λ c. IsTable c.rows)) }
    ensures rising { IfOk result (λ rows. RiseAfter Start rows) }
    ensures counted { OnOk result (BothTold WasCounted (K.state keeper.old).calls (K.state keeper.new).calls) }
{
    let mut all = Vec::new(alloc);
    'pages: loop {
        let page = keeper.rows_after(alloc, &cursor_behind(&all), PAGE)?;
        let mut rows = page.into_vec();
        let count = rows.len();
        append(&mut all, &mut rows)?;
        if count < PAGE {
            return Ok(Rows::new(all));
        }
    }
}

// The cursor behind rows that were read from the start on.
fn cursor_behind(rows: &[Row]) -> Cursor
    ensures { result ≡ last_from Start (map pair_of rows.now) }
{
    match rows.last() {
        None => Cursor::Start,
        Some(row) => Cursor::After {
            source: row.source,
            key: row.key,
        },
    }
}

// Moves rows behind others.
fn append(all: &mut Vec<Row>, rows: &mut Vec<Row>) -> Result<(), NoMemory>
    ensures rows { OnOk result (map pair_of all.new.items ≡ map pair_of all.old.items ++ map pair_of rows.old.items) }
    ensures small { length all.new.items < 2 ^ 63 }
{
    all.append(rows)?;
    Ok(())
}
