ghost use Rattle.std.specs.Prelude.{◌≡◌, ℕ, ◌≤◌, List, [], ◌++◌, IfOk, IfErr, IfSome, IfNone, OnOk, OnErr, IsErrOf};
ghost use Rattle.bus_types.specs.Causes.{Rose, HasCause};
ghost use Rattle.trace_script.specs.Cutting.{new_cut};
ghost use Rattle.history_core.specs.Script.{start};
ghost use Rattle.history_core.specs.Run.{before, line_step, text_step};
ghost use Rattle.history_core.specs.Bus.{state_of, IsSound};
ghost use Rattle.trace_script.specs.declared.line.Line.{Line};
ghost use Rattle.bus_top.specs.Session.{IsSession, Stops, TakesLine, TakesNext, HoldsPiece, Feeds, Finishes, Prints, Sends, SendsFront, cut_stop, run_bytes};

use crate::Bus;
use bus_io::{GrowingSink, Sink, write_all};
use bus_types::NoMemory;
use history_core::StepFault;
use std::alloc::Global;
use std::mem;
use trace_script::{CutFault, Line, LineCutter, LineFault, read_line};

/// The most bytes of windows that the relay keeps where no line says it.
const USUAL_BYTES: u64 = 16_777_216;

/// The most windows that the relay keeps where no line says it.
const USUAL_WINDOWS: u32 = 4_096;

/// The most bytes of text that are gathered before they are written.
const MOST_GATHERED: usize = 65_536;

/// Why a script stopped.
#[derive(Clone, Copy, Debug, PartialEq, Eq)]
pub(crate) enum Stop {
    /// The line of this number is outside the grammar or against its rules.
    BadLine(u64),
    /// The line of this number is too long.
    TooLong(u64),
    /// The output failed.
    WriteFault,
    /// Memory ran out.
    NoMemory,
}

impl From<CutFault> for Stop {
    ghost from_gives = { λ fault stop. stop ≡ cut_stop fault };

    fn from(fault: CutFault) -> Self {
        match fault {
            CutFault::TooLong(line) => Stop::TooLong(line),
            CutFault::NoMemory => Stop::NoMemory,
        }
    }
}

/// A script as it comes in pieces: the bus, and the lines that are cut off what comes.
#[derive(Debug, Drop)]
pub(crate) struct Session {
    pub bus: Bus,
    pub lines: LineCutter,
}

impl Session {
    /// A script of which nothing has come.
    pub fn new(alloc: Global) -> Result<Session, NoMemory>
        ensures state { IfOk result (λ session. state_of session.bus ≡ start) }
        ensures lines { IfOk result (λ session. session.lines ≡ new_cut) }
        ensures session { IfOk result IsSession }
    {
        Ok(Session {
            bus: Bus::new(alloc, USUAL_BYTES, USUAL_WINDOWS)?,
            lines: LineCutter::new(alloc),
        })
    }

    /// Takes the next piece of the input. What its whole lines print is gathered in `text`, and written as soon as it is more
    /// than 65,536 bytes. After `BadLine`, `TooLong` and want of memory `text` has the rest of what the lines before print.
    pub fn feed<W: Sink>(
        &mut self,
        alloc: Global,
        piece: &[u8],
        text: &mut Vec<u8>,
        out: &mut W,
    ) -> Result<(), Stop>
        requires session { IsSession self.old }
        requires empty { text.old.items ≡ [] }
        ensures feeds { Feeds result (self.old.lines.come ++ piece.now) self.old self.new (W.written out.old) (W.written out.new) text.new.items }
        ensures later { W.faults out.old ≤ W.faults out.new }
        ensures write_fault { IsErrOf result Stop.WriteFault → Rose (W.faults out.old) (W.faults out.new) }
    {
        let mut rest = piece;
        while let Some(after) = self.take_next(alloc, rest, text)? {
            relieve(text, out)?;
            rest = after;
        }
        Ok(())
    }

    // Takes the first line of a piece, and answers what stands behind it; or holds the piece, where it ends no line.
    fn take_next<'a>(
        &mut self,
        alloc: Global,
        piece: &'a [u8],
        text: &mut Vec<u8>,
    ) -> Result<Option<&'a [u8]>, Stop>
        requires session { IsSession self.old }
        ensures took { IfOk result (λ next. IfSome next (λ rest. TakesNext self.old piece.now self.new rest.now text.old.items text.new.items)) }
        ensures held { IfOk result (λ next. IfNone next (HoldsPiece self.old piece.now self.new)) }
        ensures printed { IfOk result (λ next. IfNone next (text.new.items ≡ text.old.items)) }
        ensures stops { IfErr result (λ stop. Stops stop text.old.items text.new.items self.new.bus
            (λ (more : List ℕ). before text.old.items (run_bytes self.old.bus self.old.lines
            (self.old.lines.come ++ (piece.now ++ more))))) }
    {
        let Some((end, rest)) = self.lines.take(piece)? else {
            // What is held is within the limits of an input.
            let _within = self.lines.last();
            return Ok(None);
        };
        let line = self.lines.line(end);
        take_line(&mut self.bus, alloc, self.lines.number(), line, text)?;
        self.lines.pass(end);
        Ok(Some(rest))
    }

    /// Takes the last line, where it has come without its LF, and appends what it prints.
    pub fn finish(&mut self, alloc: Global, text: &mut Vec<u8>) -> Result<(), Stop>
        requires { IsSession self.old }
        ensures { Finishes result self.old text.old.items self.new.bus text.new.items }
    {
        let Some(line) = self.lines.last() else {
            return Ok(());
        };
        take_line(&mut self.bus, alloc, self.lines.number(), line, text)
    }
}

// Takes the line of this number, and appends what it prints.
fn take_line(
    bus: &mut Bus,
    alloc: Global,
    number: u64,
    line: &[u8],
    text: &mut Vec<u8>,
) -> Result<(), Stop>
    requires { IsSound bus.old }
    ensures { TakesLine result number (text_step (state_of bus.old) line.now) bus.old bus.new text.old.items text.new.items }
{
    match take(bus, alloc, line, text) {
        Ok(()) => Ok(()),
        Err(StepFault::BadLine) => Err(Stop::BadLine(number)),
        // What is gathered grows in memory: it fails where there is none.
        Err(StepFault::WriteFault { .. } | StepFault::NoMemory) => Err(Stop::NoMemory),
    }
}

// What a text does as a line. Where it is taken, its text is appended; else nothing is.
#[tactic(auto, unfolding(history_core::specs::Run::text_step))]
fn take(bus: &mut Bus, alloc: Global, line: &[u8], text: &mut Vec<u8>) -> Result<(), StepFault>
    requires { IsSound bus.old }
    ensures { Prints result (text_step (state_of bus.old) line.now) bus.old bus.new text.old.items text.new.items }
{
    match read_line(alloc, line) {
        Ok(line) => print(bus, alloc, line, text),
        Err(LineFault::BadLine) => Err(StepFault::BadLine),
        Err(LineFault::NoMemory) => Err(StepFault::NoMemory),
    }
}

// What a line does. Where it is taken, its text is appended; else nothing is.
fn print(bus: &mut Bus, alloc: Global, line: Line, text: &mut Vec<u8>) -> Result<(), StepFault>
    requires { IsSound bus.old }
    ensures { Prints result (line_step (state_of bus.old) line) bus.old bus.new text.old.items text.new.items }
{
    let before = text.len();
    let mut out = GrowingSink::new(mem::replace(text, Vec::new(alloc)));
    let took = bus.step_owned(alloc, line, &mut out);
    *text = out.into_bytes();
    match took {
        Ok(()) => Ok(()),
        Err(fault) => {
            text.truncate(before);
            Err(fault)
        }
    }
}

// Writes what is gathered where it is more than is to be held.
fn relieve<W: Sink>(text: &mut Vec<u8>, out: &mut W) -> Result<(), Stop>
    ensures sends { OnOk result (Sends (W.written out.old) (W.written out.new) text.old.items text.new.items) }
    ensures breaks { OnErr result ((text.new.items ≡ []) × SendsFront (W.written out.old) (W.written out.new) text.old.items) }
    ensures fault { IfErr result (λ stop. stop ≡ Stop.WriteFault) }
    ensures cause { HasCause (W.faults out.old) (W.faults out.new) result }
{
    if text.len() <= MOST_GATHERED {
        return Ok(());
    }
    send(text, out)
}

// Writes what is gathered.
fn send<W: Sink>(text: &mut Vec<u8>, out: &mut W) -> Result<(), Stop>
    ensures sends { OnOk result (Sends (W.written out.old) (W.written out.new) text.old.items text.new.items) }
    ensures breaks { OnErr result ((text.new.items ≡ []) × SendsFront (W.written out.old) (W.written out.new) text.old.items) }
    ensures fault { IfErr result (λ stop. stop ≡ Stop.WriteFault) }
    ensures cause { HasCause (W.faults out.old) (W.faults out.new) result }
{
    let sent = write_all(out, text);
    text.clear();
    match sent {
        Ok(()) => Ok(()),
        Err(_) => Err(Stop::WriteFault),
    }
}
