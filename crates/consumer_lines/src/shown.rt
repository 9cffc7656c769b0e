ghost use Rattle.std.specs.Prelude.{◌≡◌, ◌++◌, map, codes, decimal, IfOk, OnOk};
ghost use Rattle.bus_types.specs.Rows.{pair_of};
ghost use Rattle.consumer_lines.specs.Shown.{stage_of, row_line, rows_text};

use bus_types::{Key, NoMemory, Row};
use checkpoint::Mark;
use std::alloc::Global;
use trace_script::Stage;

/// The stage of a mark, as far as the line of a reply tells it.
pub fn stage_of(mark: &Mark) -> Stage
    ensures { result ≡ stage_of mark.now }
{
    match *mark {
        Mark::Online { scn } => Stage::Online { scn },
        Mark::Delta { target, .. } => Stage::Delta { target },
        Mark::Snapshot { .. } => Stage::Snapshot,
        Mark::Scanned { start, .. } => Stage::Scanned { start },
        Mark::Catchup { target, .. } => Stage::Catchup { target },
    }
}

/// What is shown of a consumer that isn't online: the word `show`, its name, and what follows that.
pub fn mode_shown(alloc: Global, name: &[u8], mode: &[u8]) -> Result<Vec<u8>, NoMemory>
    ensures { IfOk result (λ text. text.items ≡ codes "show " ++ name.now ++ mode.now) }
{
    let mut text = Vec::from_slice(alloc, b"show ")?;
    text.extend_from_slice(name)?;
    text.extend_from_slice(mode)?;
    Ok(text)
}

/// What is shown of a consumer that is online: a line of its name, its SCN and the number of its rows, and then a line of each
/// row.
pub fn rows_shown(alloc: Global, name: &[u8], scn: u64, rows: &[Row]) -> Result<Vec<u8>, NoMemory>
    ensures { IfOk result (λ text. text.items ≡ rows_text name.now scn (map pair_of rows.now)) }
{
    let mut text = heading(alloc, name, scn, rows.len())?;
    for row in rows {
        put_row(alloc, &mut text, row)?;
    }
    Ok(text)
}

// The line before the rows.
fn heading(alloc: Global, name: &[u8], scn: u64, count: usize) -> Result<Vec<u8>, NoMemory>
    ensures { IfOk result (λ text. text.items ≡ codes "show " ++ name.now ++ codes " online " ++ decimal scn ++ codes " " ++ decimal count ++ codes "\n") }
{
    let mut text = Vec::from_slice(alloc, b"show ")?;
    text.extend_from_slice(name)?;
    let rest = format!(in alloc; " online {scn} {count}\n")?;
    text.extend_from_slice(rest.as_bytes())?;
    Ok(text)
}

/// Appends the line of a row. After want of memory a front of it may stand.
pub fn put_row(alloc: Global, text: &mut Vec<u8>, row: &Row) -> Result<(), NoMemory>
    ensures { OnOk result (text.new.items ≡ text.old.items ++ row_line (pair_of row.now)) }
{
    let Key::Long(key) = row.key;
    let source = row.source;
    let digits = hex::encode(alloc, row.payload.bytes())?;
    let line = format!(in alloc; "{source}/{key}={digits}\n")?;
    text.extend_from_slice(line.as_bytes())?;
    Ok(())
}
