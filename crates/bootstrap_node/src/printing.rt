ghost use Rattle.std.specs.Prelude.{◌≡◌, ◌≤◌, ◌||◌, ◌++◌, [], true, if◌then◌else◌, IfOk, IfErr, IsErrOf, OnOk, OnErr, string_bytes};
ghost use Rattle.std.specs.Io.KnownBytes.{Appends};
ghost use Rattle.bus_types.specs.Causes.{Rose};
ghost use Rattle.trace_script.specs.Printed.{gap_line, boot_line};
ghost use Rattle.bootstrap_node.specs.Rounds.{full_line, is_gap, is_filled, note};
ghost use Rattle.bootstrap_node.specs.Printing.{Prints};

use crate::stop::Stop;
use bootstrap_core::TakeLog;
use bus_io::{Sink, write_all};
use bus_types::NoMemory;
use std::alloc::Global;
use trace_script::{boot_line, gap_line};

/// Which lines were printed.
#[derive(Clone, Copy, Debug, PartialEq, Eq)]
pub(crate) struct Noted {
    /// That of a gap.
    pub gap: bool,
    /// That of a full log.
    pub full: bool,
}

/// Prints what a log took of a reply: the first gap and the first full log.
pub(crate) fn print_note<W: Sink>(
    alloc: Global,
    out: &mut W,
    noted: &mut Noted,
    took: Result<u64, TakeLog>,
) -> Result<(), Stop>
    ensures prints { Prints result (W.written out.old) (W.written out.new) (W.faults out.old) (W.faults out.new) (note noted.old.gap noted.old.full took) }
    ensures gap { noted.new.gap ≡ (noted.old.gap || is_gap took) }
    ensures full { noted.new.full ≡ (noted.old.full || is_filled took) }
{
    match took {
        Ok(_) => Ok(()),
        Err(TakeLog::BadReply { .. }) => Ok(()),
        Err(TakeLog::Gap { floor }) => print_gap(alloc, out, &mut noted.gap, floor),
        Err(TakeLog::Full { need }) => print_full(alloc, out, &mut noted.full, need),
        Err(TakeLog::LogFailed) => Ok(()),
        Err(TakeLog::Halted) => Ok(()),
        Err(TakeLog::NoMemory) => Ok(()),
    }
}

// Prints the line of a gap, where none was printed.
fn print_gap<W: Sink>(alloc: Global, out: &mut W, gap: &mut bool, floor: u64) -> Result<(), Stop>
    ensures prints { Prints result (W.written out.old) (W.written out.new) (W.faults out.old) (W.faults out.new) (if gap.old then [] else gap_line floor) }
    ensures printed { gap.new ≡ true }
{
    if *gap {
        return Ok(());
    }
    *gap = true;
    let line = gap_line(alloc, floor)?;
    print(out, &line)
}

// Prints the line of a full log, where none was printed.
fn print_full<W: Sink>(
    alloc: Global,
    out: &mut W,
    printed: &mut bool,
    need: u64,
) -> Result<(), Stop>
    ensures prints { Prints result (W.written out.old) (W.written out.new) (W.faults out.old) (W.faults out.new) (if printed.old then [] else full_line need) }
    ensures printed { printed.new ≡ true }
{
    if *printed {
        return Ok(());
    }
    *printed = true;
    let line = full_line(alloc, need)?;
    print(out, &line)
}

// The line of a log that has no room for a window of so many bytes.
fn full_line(alloc: Global, need: u64) -> Result<String, NoMemory>
    ensures { IfOk result (λ text. string_bytes text ≡ full_line need) }
{
    let text = format!(in alloc; "full {need}\n")?;
    Ok(text)
}

/// Prints the numbers of a bootstrap.
pub(crate) fn print_numbers<W: Sink>(
    alloc: Global,
    out: &mut W,
    base: u64,
    applied: u64,
    high: u64,
) -> Result<(), Stop>
    ensures { Prints result (W.written out.old) (W.written out.new) (W.faults out.old) (W.faults out.new) (boot_line base applied high) }
{
    let line = boot_line(alloc, base, applied, high)?;
    print(out, &line)
}

// Prints a line.
fn print<W: Sink>(out: &mut W, line: &String) -> Result<(), Stop>
    ensures { Prints result (W.written out.old) (W.written out.new) (W.faults out.old) (W.faults out.new) (string_bytes line.now) }
{
    match write_all(out, line.as_bytes()) {
        Ok(()) => Ok(()),
        Err(_) => Err(Stop::WriteFault),
    }
}
