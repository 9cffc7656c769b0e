ghost use Rattle.std.specs.Prelude.{◌≡◌, ◌<◌, map, IfOk};
ghost use Rattle.bus_types.specs.declared.row.Cursor.TheVariants.{After};
ghost use Rattle.bus_types.specs.Rows.{pair_of, last_from};
ghost use Rattle.partition_filter.specs.Selection.{test_of};
ghost use Rattle.snapshot_scan.specs.Filling.{Extends, filled, empty_in};
ghost use Rattle.snapshot_scan.specs.Paging.{IsPlace, FilledFrom, OnlyReads};

use crate::filling::{Filling, put_rows};
use bus_stores::{Keeper, StoreFault};
use bus_types::{Cursor, Key, Row};
use partition_filter::Filter;
use std::alloc::Global;

/// The most rows that are asked for at a time.
const PAGE: usize = 64;

/// The least bytes of a row.
const LEAST: u32 = 23;

/// Fills a chunk with a keeper's rows after a cursor, page by page, up to the first row that does not fit. It reads at
/// most a page beyond the chunk. After a fault the output still begins as before.
pub(crate) fn fill<K: Keeper>(
    alloc: Global,
    keeper: &mut K,
    scn: u64,
    cursor: &Cursor,
    filter: &Filter,
    max: u32,
    reply: &mut Vec<u8>,
) -> Result<Filling, StoreFault>
    ensures filled { IfOk result (λ filling. FilledFrom (test_of filter.now) scn cursor.now (K.state keeper.new)
        (empty_in max reply.old.items) (filled reply.new.items filling)) }
    ensures reads { OnlyReads (K.state keeper.old) (K.state keeper.new) result }
    ensures front { Extends reply.old.items reply.new.items }
{
    let page = page_size(max);
    let mut filling = Filling::new(max);
    let mut place = place_of(cursor);
    'pages: loop {
        let rows = keeper.rows_after(alloc, &place, page)?.into_vec();
        let count = rows.len();
        place = cursor_behind(&place, &rows);
        put_rows(scn, rows, filter, &mut filling, reply)?;
        if count < page || filling.unfit.is_some() {
            return Ok(filling);
        }
    }
}

// How many rows are asked for at a time: no more than can fit, and one.
fn page_size(max: u32) -> usize
    ensures { 0 < result }
{
    PAGE.min((max / LEAST) as usize + 1)
}

// The cursor behind rows that were read from a cursor on.
fn cursor_behind(cursor: &Cursor, rows: &[Row]) -> Cursor
    requires { IsPlace cursor.now }
    ensures behind { result ≡ last_from cursor.now (map pair_of rows.now) }
    ensures place { IsPlace result }
{
    match rows.last() {
        None => *cursor,
        Some(row) => cursor_after(row.source, row.key),
    }
}

// The same cursor, with the ranges of its numbers.
fn place_of(cursor: &Cursor) -> Cursor
    ensures value { result ≡ cursor.now }
    ensures place { IsPlace result }
{
    match *cursor {
        Cursor::Start => Cursor::Start,
        Cursor::After { source, key } => cursor_after(source, key),
    }
}

// The cursor behind a row, with the ranges of its numbers.
fn cursor_after(source: u16, key: Key) -> Cursor
    ensures value { result ≡ After source key }
    ensures place { IsPlace result }
{
    let Key::Long(_number) = key;
    Cursor::After { source, key }
}
