ghost use Rattle.std.specs.Prelude.{◌≡◌, ◌<◌, length};

use bus_types::Untold;
use partition_filter::Filter;
use range_ring::{Opened, Pass, Range, Ring};
use std::alloc::AllocError;
use std::fmt::Write;
use std::sync::Wait;

/// What a pass asks for: the windows behind an SCN that a filter leaves, in so many bytes.
#[derive(Clone, Copy, Debug)]
pub(crate) struct Ask {
    /// The SCN.
    pub scn: u64,
    /// The most bytes.
    pub max: u32,
    /// Whether only rows with an odd key are asked for.
    pub odd: bool,
}

/// Opens what stands behind an SCN, and writes it.
pub(crate) fn open_and_write<R: Wait>(
    rt: &R,
    text: &mut String,
    ring: &Ring<Untold>,
    pass: &mut Pass<Untold>,
    ask: &Ask,
    filter: &Filter,
) -> Result<(), AllocError>
    requires { pass.old.home ≡ ring.now }
    ensures { pass.new.home ≡ ring.now }
{
    let (scn, max) = (ask.scn, ask.max);
    match pass.open(rt, ring, scn, filter, max) {
        Opened::Range(range) => {
            writeln!(
                text,
                "{scn} {max}: {} windows, {} bytes",
                range.count(),
                range.size()
            )?;
            write_range(text, &range)
        }
        Opened::NotFound { floor } => writeln!(text, "{scn} {max}: not found, floor {floor}"),
        Opened::Empty { tail } => writeln!(text, "{scn} {max}: empty, tail {tail}"),
        Opened::TooSmall { need } => writeln!(text, "{scn} {max}: too small, need {need}"),
    }
}

// Writes the size of each window of a range, and of its parts.
fn write_range(text: &mut String, range: &Range<'_, Untold, Filter>) -> Result<(), AllocError> {
    for i in 0..range.count() {
        writeln!(text, "    window of {} bytes", range.window(i).len())?;
        write_parts(text, range, i)?;
    }
    Ok(())
}

// Writes where each part of a window ends, and how long it is.
fn write_parts(
    text: &mut String,
    range: &Range<'_, Untold, Filter>,
    i: u32,
) -> Result<(), AllocError>
    requires { i < length range.now.entries }
{
    let _begins = range.window(i);
    let mut place = 0;
    for _ in 0..16 {
        let Some(part) = range.part(i, place) else {
            return Ok(());
        };
        writeln!(
            text,
            "        part of {} bytes up to {}",
            part.bytes.len(),
            part.next
        )?;
        place = part.next;
    }
    Ok(())
}

/// Writes the numbers that a pass has seen.
pub(crate) fn write_seen(text: &mut String, pass: &Pass<Untold>) -> Result<(), AllocError> {
    let numbers = pass.seen();
    writeln!(
        text,
        "seen {} evicted, {} published",
        numbers.evicted, numbers.published
    )
}
