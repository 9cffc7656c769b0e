ghost use Rattle.std.specs.Prelude.{◌≡◌, ◌++◌, ◌+◌, ◌*◌, ◌≤◌, length, map, flat_map, codes, IfOk, string_bytes};
ghost use Rattle.bus_types.specs.Rows.{pair_of};
ghost use Rattle.bus_types.specs.Fnv.{fnv1a_of};
ghost use Rattle.history_core.specs.Script.{rows_size, hash_text, sum_numbers, sum_line, sum_text};
ghost use Rattle.consumer_lines.specs.Shown.{row_line};

use bus_types::{NoMemory, Row, fnv1a};
use consumer_lines::put_row;
use std::alloc::Global;

/// The summary of a consumer that isn't online.
pub(crate) fn mode(alloc: Global, name: &[u8], mode: &[u8]) -> Result<Vec<u8>, NoMemory>
    ensures { IfOk result (λ text. text.items ≡ codes "sum " ++ name.now ++ mode.now) }
{
    let mut text = Vec::from_slice(alloc, b"sum ")?;
    text.extend_from_slice(name)?;
    text.extend_from_slice(mode)?;
    Ok(text)
}

// The lines of rows, and the bytes of their payloads.
fn lines(alloc: Global, rows: &[Row]) -> Result<(Vec<u8>, u64), NoMemory>
    ensures lines { IfOk result (λ r. r.0.items ≡ flat_map row_line (map pair_of rows.now)) }
    ensures size { IfOk result (λ r. r.1 ≡ rows_size (map pair_of rows.now)) }
{
    let mut lines = Vec::new(alloc);
    let mut size: u64 = 0;
    for row in rows {
        put_row(alloc, &mut lines, row)?;
        let _within = lines.len();
        size += row.payload.bytes().len() as u64;
    }
    Ok((lines, size))
}

// The hash of bytes in 16 digits.
fn hash_text(alloc: Global, bytes: &[u8]) -> Result<String, NoMemory>
    ensures { IfOk result (λ text. string_bytes text ≡ hash_text (fnv1a_of bytes.now)) }
{
    Ok(hex::encode(alloc, &fnv1a(bytes).to_be_bytes())?)
}

// What stands in the line of a summary behind the name.
fn numbers(alloc: Global, scn: u64, count: usize, size: u64, hash: &str) -> Result<String, NoMemory>
    ensures { IfOk result (λ text. string_bytes text ≡ sum_numbers scn count size hash.now) }
{
    let text = format!(in alloc; " online {scn} {count} {size} {hash}\n")?;
    Ok(text)
}

// The line of a summary.
fn line(
    alloc: Global,
    name: &[u8],
    scn: u64,
    count: usize,
    size: u64,
    hash: &str,
) -> Result<Vec<u8>, NoMemory>
    ensures { IfOk result (λ text. text.items ≡ sum_line name.now scn count size hash.now) }
{
    let mut text = Vec::from_slice(alloc, b"sum ")?;
    text.extend_from_slice(name)?;
    let rest = numbers(alloc, scn, count, size, hash)?;
    text.extend_from_slice(rest.as_bytes())?;
    Ok(text)
}

/// The summary of a consumer that is online: its SCN, and that of its rows.
pub(crate) fn rows(alloc: Global, name: &[u8], scn: u64, rows: &[Row]) -> Result<Vec<u8>, NoMemory>
    ensures { IfOk result (λ text. text.items ≡ sum_text name.now scn (map pair_of rows.now)) }
{
    let (lines, size) = lines(alloc, rows)?;
    let hash = hash_text(alloc, &lines)?;
    line(alloc, name, scn, rows.len(), size, &hash)
}
