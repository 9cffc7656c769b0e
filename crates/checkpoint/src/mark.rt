ghost use Rattle.std.specs.Prelude.{◌≡◌, IfOk, IsErrOf};
ghost use Rattle.checkpoint.specs.declared.mark.Mark.{Mark};
ghost use Rattle.checkpoint.specs.declared.mark.MarkFault.TheVariants as faults;
ghost use Rattle.checkpoint.specs.Mark.{IsMark, MayBeMark, mark_text, floor_of};

use crate::reading::{candidate, may_be_mark};
use crate::writing::text_of;
use bus_types::{Cursor, MarkText, NoMemory};
use std::alloc::Global;

/// How far a consumer has come. Each SCN of a mark is at most [`bus_types::MAX_SCN`].
#[derive(Clone, Copy, Debug, PartialEq, Eq)]
pub enum Mark {
    /// The rows are those of the source at `scn`.
    Online {
        /// The SCN of the last window that the consumer followed, or 0.
        scn: u64,
    },
    /// The consumer takes what changed between two SCNs: rows up to the cursor are those at `target`, and the others
    /// those at `since`.
    Delta {
        /// The SCN that it stood at before, below `target`.
        since: u64,
        /// The SCN that it moves to.
        target: u64,
        /// The last row that it took.
        cursor: Cursor,
    },
    /// The consumer scans a moving source: each row up to the cursor is that of some SCN from `start` to `top`, and
    /// there is no row after it.
    Snapshot {
        /// The SCN that it stood at before.
        since: u64,
        /// The SCN at which the scan began, at most `top`.
        start: u64,
        /// The SCN up to which the source had come at the last chunk.
        top: u64,
        /// The last row that it took.
        cursor: Cursor,
    },
    /// The scan has ended: each row is that of some SCN from `start` to `top`.
    Scanned {
        /// The SCN that it stood at before.
        since: u64,
        /// The SCN at which the scan began, at most `top`.
        start: u64,
        /// The SCN up to which the source had come at the last chunk.
        top: u64,
    },
    /// The consumer follows the windows after the start of its scan: rows that changed after `start` and up to `at`
    /// are those at `at`, and each other is that of some SCN from `start` to `target`.
    Catchup {
        /// The SCN that it stood at before, at most `target`.
        since: u64,
        /// The SCN at which the scan began, at most `at`.
        start: u64,
        /// The SCN that it moves to.
        target: u64,
        /// The SCN of the last window that it followed, below `target`.
        at: u64,
    },
}

/// Why no mark was read.
#[derive(Clone, Copy, Debug, PartialEq, Eq)]
pub enum MarkFault {
    /// No mark has the text.
    BadMark,
    /// Memory ran out.
    NoMemory,
}

impl Mark {
    /// The mark of this text, read exactly: `BadMark` comes exactly where no mark has the text, and `NoMemory` where
    /// memory ran out. A text of fewer than 25 or more than 139 bytes, or that doesn't begin with a brace, takes no memory.
    pub fn read(alloc: Global, text: &MarkText) -> Result<Mark, MarkFault>
        ensures found { IfOk result (λ mark. IsMark mark × (text.now ≡ mark_text mark)) }
        ensures bad { IsErrOf result MarkFault.BadMark → (mark : Mark) → IsMark mark → text.now ≡ mark_text mark → ⊥ }
        ensures memory { IsErrOf result MarkFault.NoMemory → MayBeMark text.now }
    {
        if !may_be_mark(text.bytes()) {
            return Err(MarkFault::BadMark);
        }
        let mark = candidate(alloc, text.bytes())?;
        let written = mark.write(alloc)?;
        if written.bytes() != text.bytes() {
            return Err(MarkFault::BadMark);
        }
        Ok(mark)
    }

    /// The text of the mark, which is read back as the same mark. An error says that memory ran out.
    pub fn write(&self, alloc: Global) -> Result<MarkText, NoMemory>
        requires { IsMark self.now }
        ensures { IfOk result (λ text. text ≡ mark_text self.now) }
    {
        let text = text_of(alloc, *self)?;
        MarkText::new(alloc, text.as_bytes())
    }

    /// The SCN that the consumer stands at, or stood at before it began to move: `scn` of `Online`, and `since` of any
    /// other mark.
    pub fn floor_of(&self) -> u64
        ensures { result ≡ floor_of self.now }
    {
        match *self {
            Mark::Online { scn } => scn,
            Mark::Delta { since, .. }
            | Mark::Snapshot { since, .. }
            | Mark::Scanned { since, .. }
            | Mark::Catchup { since, .. } => since,
        }
    }
}

impl From<NoMemory> for MarkFault {
    ghost from_gives = { λ _ e. e ≡ faults.NoMemory };

    fn from(_: NoMemory) -> Self {
        MarkFault::NoMemory
    }
}
