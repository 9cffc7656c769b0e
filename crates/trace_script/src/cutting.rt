ghost use Rattle.std.specs.Prelude.{◌≡◌, ◌==◌, ◌+◌, ◌≤◌, ◌<◌, ℕ, if◌then◌else◌, true, false, [], ◌∷◌, ◌++◌, length, IfOk, IfSome, IfNone, IsErrOf, OnErr, OnOk};
ghost use Rattle.trace_script.specs.Input.{IsPart, lines_of, is_too_long, most_lines, longest_input};
ghost use Rattle.trace_script.specs.Cutting.{new_cut, text_at, line_at, last_line, CutsOff, Holds, IsLong, is_long};

use crate::fault::CutFault;
use memchr::memchr;
use std::alloc::Global;
use std::marker::Model;

/// The most lines of an input.
const MOST_LINES: u64 = 1_000_000;

/// The most bytes of a line, without its LF.
const LONGEST_LINE: u64 = 4_194_304;

/// The most bytes of an input.
const LONGEST_INPUT: u64 = 16_777_216;

/// Cuts an input into its lines, as it comes in pieces. A line that came in one piece is lent from there; what has come of a
/// line that goes on in the next piece is held. A line is too long where 1,000,000 lines came before it, where it has more
/// than 4,194,304 bytes without its LF, or where the input up to its end has more than 16,777,216.
///
/// `take` cuts the next line off a piece, `line` lends it, and `pass` is called once it is done with; so on with the rest of
/// the piece, until `take` answers None. At the end of the input `last` lends what came behind the last LF.
#[derive(Debug, Drop)]
pub struct LineCutter {
    count: u64,
    used: u64,
    come: Vec<u8>,
}

impl Model for LineCutter {
    ghost use Rattle.trace_script.specs.Cutting.{Cut, IsCut};

    ghost Value = { Cut };

    ghost view = { λ c. record { count = c.count; used = c.used; come = c.come.items } };

    ghost invariant = { λ c.
        let cut : Cut = record { count = c.count; used = c.used; come = c.come.items } in
        IsCut cut };
}

impl LineCutter {
    /// Of an input of which nothing has come. It takes no memory.
    pub fn new(alloc: Global) -> LineCutter
        ensures { result ≡ new_cut }
    {
        LineCutter {
            count: 0,
            used: 0,
            come: Vec::new(alloc),
        }
    }

    /// The number of the next line, or of the one at hand, counted from 1.
    pub fn number(&self) -> u64
        ensures { result ≡ self.now.count + 1 }
    {
        self.count + 1
    }

    /// Cuts the next line off a piece: answers its end, which `line` and `pass` take, and what stands behind its LF. Where the
    /// piece has no LF, it is held, and the answer is None. `TooLong` comes exactly where the next line is too long, or is so
    /// already as far as it has come, and `NoMemory` where a part of a line can't be held. After a fault all is as before.
    pub fn take<'a>(&mut self, piece: &'a [u8]) -> Result<Option<(&'a [u8], &'a [u8])>, CutFault>
        ensures cut { IfOk result (λ found. IfSome found (λ parts. CutsOff self.old piece.now self.new parts.0.now parts.1.now)) }
        ensures held { IfOk result (λ found. IfNone found (Holds self.old piece.now self.new)) }
        ensures too_long { (line : ℕ) → IsErrOf result (CutFault.TooLong line) → IsLong self.old piece.now line }
        ensures back { OnErr result (self.new ≡ self.old) }
    {
        match first_part(piece) {
            None => {
                hold(self.count, self.used, &mut self.come, piece)?;
                Ok(None)
            }
            Some((end, rest)) => {
                join(self.count, self.used, &mut self.come, end)?;
                Ok(Some((end, rest)))
            }
        }
    }

    /// The line that `take` cut off, with this end.
    pub fn line<'a>(&'a self, end: &'a [u8]) -> &'a [u8]
        ensures { result.now ≡ text_at self.now end.now }
    {
        if self.come.is_empty() {
            end
        } else {
            &self.come
        }
    }

    /// The line that `take` cut off, with this end, is done with.
    pub fn pass(&mut self, end: &[u8])
        requires { is_too_long self.old.count self.old.used (line_at self.old end.now) ≡ false }
        ensures { self.new ≡ record { count = self.old.count + 1; used = self.old.used + length (text_at self.old end.now) + 1; come = [] } }
    {
        let size = self.line(end).len() as u64 + 1;
        self.count += 1;
        self.used += size;
        self.come.clear();
    }

    /// What has come behind the last LF, if anything has: the last line, where no more comes. It isn't too long.
    pub fn last(&self) -> Option<&[u8]>
        ensures none { IfNone result (self.now.come ≡ []) }
        ensures line { IfSome result (λ line. line.now ≡ self.now.come) }
        ensures all { IfSome result (λ line. lines_of self.now.come ≡ last_line self.now ∷ []) }
        ensures within { IfSome result (λ line. is_too_long self.now.count self.now.used (last_line self.now) ≡ false) }
    {
        if self.come.is_empty() {
            None
        } else {
            Some(&self.come)
        }
    }
}

// The bytes before the first LF, and those behind it.
fn first_part(bytes: &[u8]) -> Option<(&[u8], &[u8])>
    ensures some { IfSome result (λ found. IsPart found.0.now × (bytes.now ≡ found.0.now ++ 10 ∷ found.1.now)) }
    ensures none { IfNone result (IsPart bytes.now) }
{
    let at = memchr(b'\n', bytes)?;
    let (line, end) = bytes.split_at(at);
    Some((line, &end[1..]))
}

// Whether a line is too long, by the bytes of its text and those that it takes.
fn is_long(count: u64, used: u64, text: u64, size: u64) -> bool
    ensures { result ≡ is_long count used text size }
{
    count >= MOST_LINES || text > LONGEST_LINE || used.saturating_add(size) > LONGEST_INPUT
}

// Holds a part of a line, as long as the line isn't too long already.
fn hold(count: u64, used: u64, come: &mut Vec<u8>, part: &[u8]) -> Result<(), CutFault>
    requires count { count ≤ most_lines }
    requires used { used ≤ longest_input }
    ensures ok { OnOk result (come.new.items ≡ come.old.items ++ part.now) }
    ensures within { OnOk result (0 < length (come.old.items ++ part.now)
        → is_long count used (length (come.old.items ++ part.now)) (length (come.old.items ++ part.now)) ≡ false) }
    ensures number { (line : ℕ) → IsErrOf result (CutFault.TooLong line) → line ≡ count + 1 }
    ensures some { (line : ℕ) → IsErrOf result (CutFault.TooLong line) → 0 < length (come.old.items ++ part.now) }
    ensures too_long { (line : ℕ) → IsErrOf result (CutFault.TooLong line)
        → is_long count used (length (come.old.items ++ part.now)) (length (come.old.items ++ part.now)) ≡ true }
    ensures back { OnErr result (come.new.items ≡ come.old.items) }
{
    let size = come.len() as u64 + part.len() as u64;
    if size > 0 && is_long(count, used, size, size) {
        return Err(CutFault::TooLong(count + 1));
    }
    come.extend_from_slice(part)?;
    Ok(())
}

// Holds the end of a line too, where something was held of it, if the line isn't too long.
fn join(count: u64, used: u64, come: &mut Vec<u8>, end: &[u8]) -> Result<(), CutFault>
    requires { count ≤ most_lines }
    ensures ok { OnOk result (come.new.items ≡ (if length come.old.items == 0 then [] else come.old.items ++ end.now)) }
    ensures within { OnOk result (is_long count used (length (come.old.items ++ end.now)) (length (come.old.items ++ end.now) + 1) ≡ false) }
    ensures number { (line : ℕ) → IsErrOf result (CutFault.TooLong line) → line ≡ count + 1 }
    ensures too_long { (line : ℕ) → IsErrOf result (CutFault.TooLong line)
        → is_long count used (length (come.old.items ++ end.now)) (length (come.old.items ++ end.now) + 1) ≡ true }
    ensures back { OnErr result (come.new.items ≡ come.old.items) }
{
    let size = come.len() as u64 + end.len() as u64;
    if is_long(count, used, size, size + 1) {
        return Err(CutFault::TooLong(count + 1));
    }
    if !come.is_empty() {
        come.extend_from_slice(end)?;
    }
    Ok(())
}
