ghost use Rattle.std.specs.Prelude.{◌≡◌, ◌<◌, [], length, IfOk, IfErr, IfSome, IfNone, OnOk};
ghost use Rattle.trace_script.specs.Cutting.{new_cut};
ghost use Rattle.range_ring.specs.Belonging.{new_feeder};
ghost use Rattle.relay_node.specs.Feeding.Ending.{Finished};
ghost use Rattle.relay_node.specs.Pieces.{new_sent, next_gives, StandNext, TakesLine, TakesPart, LeadsTo, StopsAt, EndsIn, IsWithin, runs, cut_stop};

use crate::line::{LineStop, take_text};
use crate::publisher::Publisher;
use bus_types::Timeline;
use range_ring::{Feeder, Ring};
use std::alloc::Global;
use std::sync::Wait;
use trace_script::{CutFault, LineCutter};

/// Why an input stopped.
#[derive(Clone, Copy, Debug, PartialEq, Eq)]
pub(crate) enum Stop {
    /// The line of this number is outside the grammar or against a rule.
    BadLine(u64),
    /// The line of this number is too long.
    TooLong(u64),
    /// The line of this number is of scripts, and not of a relay's input.
    WrongWord(u64),
    /// The input failed.
    ReadFault,
    /// Memory ran out.
    NoMemory,
}

impl From<CutFault> for Stop {
    ghost from_gives = { λ fault stop. stop ≡ cut_stop fault };

    fn from(fault: CutFault) -> Self {
        match fault {
            CutFault::TooLong(line) => Stop::TooLong(line),
            CutFault::NoMemory => Stop::NoMemory,
        }
    }
}

/// What is fed by an input as it comes in pieces, and publishes its windows on a ring.
#[derive(Drop)]
pub(crate) struct Feed<'r, R, T: Timeline> {
    /// What publishes the windows.
    pub publisher: Publisher<'r, R, T>,
    /// What has come of the next line.
    pub lines: LineCutter,
}

impl<'r, R: Wait, T: Timeline> Feed<'r, R, T> {
    /// What publishes on a new ring, where nothing has come of the input.
    pub fn new(rt: &'r R, alloc: Global, ring: &'r Ring<T>, feeder: Feeder<T>) -> Feed<'r, R, T>
        requires { feeder ≡ new_feeder ring.now }
        ensures sent { result.publisher ≡ new_sent ring.now }
        ensures lines { result.lines ≡ new_cut }
    {
        Feed {
            publisher: Publisher::new(rt, ring, feeder),
            lines: LineCutter::new(alloc),
        }
    }

    /// Publishes the windows of the lines in the next piece of the input.
    pub fn take(&mut self, alloc: Global, piece: &[u8]) -> Result<(), Stop>
        requires within { IsWithin (record { sent = self.old.publisher; lines = self.old.lines }) }
        requires leads { LeadsTo T.told (record { sent = self.old.publisher; lines = self.old.lines }) piece.now }
        ensures takes { OnOk result (TakesPart (record { sent = self.old.publisher; lines = self.old.lines }) piece.now
            (record { sent = self.new.publisher; lines = self.new.lines }) []) }
        ensures stops { IfErr result (λ stop. StopsAt stop (EndsIn (record { sent = self.old.publisher; lines = self.old.lines }) piece.now)) }
    {
        let mut rest = piece;
        while let Some(after) = self.take_next(alloc, rest)? {
            rest = after;
        }
        Ok(())
    }

    // Takes the first line of a piece, and answers what stands behind it; or holds the piece, where it ends no line.
    fn take_next<'a>(&mut self, alloc: Global, piece: &'a [u8]) -> Result<Option<&'a [u8]>, Stop>
        requires within { IsWithin (record { sent = self.old.publisher; lines = self.old.lines }) }
        requires leads { LeadsTo T.told (record { sent = self.old.publisher; lines = self.old.lines }) piece.now }
        ensures took { IfOk result (λ next. IfSome next (λ rest. TakesPart (record { sent = self.old.publisher; lines = self.old.lines }) piece.now
            (record { sent = self.new.publisher; lines = self.new.lines }) rest.now)) }
        ensures held { IfOk result (λ next. IfNone next (TakesPart (record { sent = self.old.publisher; lines = self.old.lines }) piece.now
            (record { sent = self.new.publisher; lines = self.new.lines }) [])) }
        ensures shorter { IfOk result (λ next. IfSome next (λ rest. length rest.now < length piece.now)) }
        ensures stops { IfErr result (λ stop. StopsAt stop (EndsIn (record { sent = self.old.publisher; lines = self.old.lines }) piece.now)) }
    {
        let Some((end, rest)) = self.lines.take(piece)? else {
            // What is held is within the limits of an input.
            let _within = self.lines.last();
            return Ok(None);
        };
        let line = self.lines.line(end);
        let number = self.lines.number();
        take_numbered(alloc, number, line, &mut self.publisher)?;
        self.lines.pass(end);
        Ok(Some(rest))
    }

    /// Publishes the windows of the last line, where it has come without its LF.
    pub fn finish(&mut self, alloc: Global) -> Result<(), Stop>
        requires within { IsWithin (record { sent = self.old.publisher; lines = self.old.lines }) }
        requires ends { IfSome T.told (λ windows. (runs (record { sent = self.old.publisher; lines = self.old.lines }) []).sent.windows ≡ windows) }
        ensures done { OnOk result (runs (record { sent = self.old.publisher; lines = self.old.lines }) []
            ≡ record { sent = self.new.publisher; ending = Finished }) }
        ensures stops { IfErr result (λ stop. StopsAt stop (λ ending. (runs (record { sent = self.old.publisher; lines = self.old.lines }) []).ending ≡ ending)) }
    {
        let Some(line) = self.lines.last() else {
            return Ok(());
        };
        let number = self.lines.number();
        take_numbered(alloc, number, line, &mut self.publisher)
    }
}

// Publishes the windows of the line of this number.
fn take_numbered<R: Wait, T: Timeline>(
    alloc: Global,
    number: u64,
    line: &[u8],
    publisher: &mut Publisher<'_, R, T>,
) -> Result<(), Stop>
    requires { StandNext T.told publisher.old (next_gives publisher.old line.now) }
    ensures { TakesLine result number (next_gives publisher.old line.now) publisher.old publisher.new }
{
    match take_text(alloc, line, publisher) {
        Ok(()) => Ok(()),
        Err(LineStop::BadLine) => Err(Stop::BadLine(number)),
        Err(LineStop::WrongWord) => Err(Stop::WrongWord(number)),
        Err(LineStop::NoMemory) => Err(Stop::NoMemory),
    }
}
