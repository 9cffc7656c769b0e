ghost use Rattle.std.specs.Prelude.{◌≡◌};
ghost use Rattle.bus_top.specs.Status.{status_number};

use std::fmt;

/// How a call of the top ended.
#[derive(Clone, Copy, Debug, PartialEq, Eq)]
pub enum Status {
    /// The defined end.
    Done,
    /// The words are no form of a command.
    Usage,
    /// A line is outside the grammar or against its rules.
    BadLine {
        /// The number of the line, counted from 1.
        line: u64,
    },
    /// The input failed.
    ReadFault,
    /// The output failed.
    WriteFault,
    /// Memory ran out.
    NoMemory,
    /// A line is one too many or too long, or the input up to its end is.
    TooLong {
        /// The number of the line, counted from 1.
        line: u64,
    },
}

impl Status {
    /// The exit status of the program.
    pub fn number(self) -> u8
        ensures { result ≡ status_number self }
    {
        match self {
            Status::Done => 0,
            Status::Usage => 1,
            Status::BadLine { .. } => 2,
            Status::ReadFault => 3,
            Status::WriteFault => 4,
            Status::NoMemory => 5,
            Status::TooLong { .. } => 6,
        }
    }
}

/// What the program writes on standard error, without the LF at its end. `Done` has no text.
impl fmt::Display for Status {
    ghost use Rattle.std.specs.Prelude.{Some};
    ghost use Rattle.bus_top.specs.Status.{status_text};

    ghost output = { λ s. Some (status_text s) };

    fn fmt<W: fmt::Write>(&self, f: &mut fmt::Formatter<W>) -> fmt::Result {
        match *self {
            Status::Done => Ok(()),
            Status::Usage => write!(f, "databus: usage"),
            Status::BadLine { line } => write!(f, "databus: bad line {line}"),
            Status::ReadFault => write!(f, "databus: read fault"),
            Status::WriteFault => write!(f, "databus: write fault"),
            Status::NoMemory => write!(f, "databus: no memory"),
            Status::TooLong { line } => write!(f, "databus: too long at line {line}"),
        }
    }
}
