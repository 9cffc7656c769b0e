ghost use Rattle.std.specs.Prelude.{◌≡◌};
ghost use Rattle.bus_node.specs.Status.{status_number};

use std::fmt;

/// How a node ended. Numbers and texts are of one table with those of a script's run.
#[derive(Clone, Copy, Debug, PartialEq, Eq)]
pub enum NodeStatus {
    /// The defined end.
    Done,
    /// The words are no form of a node's command.
    Usage,
    /// A line of the relay's input is outside the grammar or against its rules.
    BadLine {
        /// The number of the line, counted from 1.
        line: u64,
    },
    /// The input failed: its count rose.
    ReadFault,
    /// The output failed: its count rose.
    WriteFault,
    /// Memory ran out.
    NoMemory,
    /// A line of the relay's input is one too many or too long, or the input up to its end is.
    TooLong {
        /// The number of the line, counted from 1.
        line: u64,
    },
    /// The link failed, or a door or a connection of the node's own that it took back: its count rose.
    LinkFault,
    /// The keeper failed: its count rose.
    StoreFault,
    /// A line of the relay's input has a word of scripts that a relay doesn't take.
    WrongWord {
        /// The number of the line, counted from 1.
        line: u64,
    },
    /// What a peer wrote is no answer.
    BadAnswer,
    /// What a peer answered is no lawful reply.
    BadReply {
        /// The place of the first item of the reply that can't stand, or is missing or cut.
        place: u64,
    },
    /// The keeper's stored mark is no mark's text.
    BadMark,
    /// The bootstrap's table is ahead of its log.
    Ahead {
        /// The SCN of the table.
        applied: u64,
        /// The SCN of the newest logged window.
        high: u64,
    },
    /// The bootstrap's log begins behind its base.
    Hole {
        /// The SCN behind which the log is needed.
        base: u64,
        /// The SCN behind which the log begins.
        floor: u64,
    },
}

impl NodeStatus {
    /// The exit status of the program.
    pub fn number(self) -> u8
        ensures { result ≡ status_number self }
    {
        match self {
            NodeStatus::Done => 0,
            NodeStatus::Usage => 1,
            NodeStatus::BadLine { .. } => 2,
            NodeStatus::ReadFault => 3,
            NodeStatus::WriteFault => 4,
            NodeStatus::NoMemory => 5,
            NodeStatus::TooLong { .. } => 6,
            NodeStatus::LinkFault => 7,
            NodeStatus::StoreFault => 9,
            NodeStatus::WrongWord { .. } => 10,
            NodeStatus::BadAnswer => 11,
            NodeStatus::BadReply { .. } => 12,
            NodeStatus::BadMark => 13,
            NodeStatus::Ahead { .. } => 15,
            NodeStatus::Hole { .. } => 16,
        }
    }
}

/// What the program writes on standard error, without the LF at its end. `Done` has no text.
impl fmt::Display for NodeStatus {
    ghost use Rattle.std.specs.Prelude.{Some};
    ghost use Rattle.bus_node.specs.Status.{status_text};

    ghost output = { λ s. Some (status_text s) };

    fn fmt<W: fmt::Write>(&self, f: &mut fmt::Formatter<W>) -> fmt::Result {
        match *self {
            NodeStatus::Done => Ok(()),
            NodeStatus::Usage => write!(f, "databus: usage"),
            NodeStatus::BadLine { line } => write!(f, "databus: bad line {line}"),
            NodeStatus::ReadFault => write!(f, "databus: read fault"),
            NodeStatus::WriteFault => write!(f, "databus: write fault"),
            NodeStatus::NoMemory => write!(f, "databus: no memory"),
            NodeStatus::TooLong { line } => write!(f, "databus: too long at line {line}"),
            NodeStatus::LinkFault => write!(f, "databus: link fault"),
            NodeStatus::StoreFault => write!(f, "databus: store fault"),
            NodeStatus::WrongWord { line } => write!(f, "databus: wrong word at line {line}"),
            NodeStatus::BadAnswer => write!(f, "databus: bad answer"),
            NodeStatus::BadReply { place } => write!(f, "databus: bad reply at {place}"),
            NodeStatus::BadMark => write!(f, "databus: bad mark"),
            NodeStatus::Ahead { applied, high } => {
                write!(f, "databus: applied {applied} above {high}")
            }
            NodeStatus::Hole { base, floor } => write!(f, "databus: base {base} below {floor}"),
        }
    }
}
