ghost use Rattle.std.specs.Prelude.{◌≡◌};
ghost use Rattle.trace_script.specs.Spelling.{is_room, is_count, is_most, is_generated, is_in_range};

use crate::name::Name;
use bus_types::{Changes, MAX_SCN};
use partition_filter::Filter;

/// The least bytes of windows that a relay is told to hold.
pub(crate) const MIN_ROOM: u64 = 1_048_576;

/// The most bytes of windows that a relay is told to hold.
pub(crate) const MAX_ROOM: u64 = 268_435_456;

/// The most windows that a relay is told to hold.
pub(crate) const MAX_WINDOWS: u64 = 65_536;

/// The most commits that one line feeds, and the most windows that one logs or applies.
pub(crate) const MAX_COUNT: u64 = 1_000_000;

/// The greatest number that windows are made from.
pub(crate) const MAX_SEED: u64 = 2_147_483_647;

/// The most windows that one line makes.
pub(crate) const MAX_GENERATED: u64 = 100_000;

/// The most bytes that a line may ask a reply to have.
pub(crate) const MAX_REPLY: u64 = 16_777_216;

/// A line of a script.
#[derive(Debug, Drop)]
pub enum Line {
    /// An empty line, or a comment, which begins with `#`. It does nothing.
    Blank,
    /// `relay BYTES COUNT`: the room of the relay. It is the first line that isn't blank, or there is none.
    Relay {
        /// The most bytes of windows in full, 1,048,576 to 268,435,456.
        bytes: u64,
        /// The most windows, 1 to 65,536.
        windows: u32,
    },
    /// `consumer NAME FILTER`: a new consumer.
    Consumer {
        /// Its name, which no consumer has yet.
        name: Name,
        /// Which rows it follows.
        filter: Filter,
    },
    /// `commit SCN CHANGE ..`: the source commits a window of at least one change.
    Commit {
        /// Its SCN. By the grammar any u64; a rule of the step wants it above the last one.
        scn: u64,
        /// Its changes, in order.
        changes: Changes,
    },
    /// `gen SEED COUNT`: the source commits windows that are made from a number, as `gen_window` makes them.
    Gen {
        /// The number, 0 to 2,147,483,647.
        seed: u32,
        /// How many windows, 1 to 100,000.
        count: u32,
    },
    /// `feed N`: the relay publishes the next N commits, 1 to 1,000,000, or those there are.
    Feed(u64),
    /// `poll NAME MAX`: a consumer asks the relay for the next windows and follows them.
    Poll {
        /// The consumer.
        name: Name,
        /// The most bytes that the reply may have, 1 to 16,777,216.
        max: u32,
    },
    /// `show NAME`: prints a consumer's SCN and rows.
    Show(Name),
    /// `sum NAME`: prints a consumer's SCN and a summary of its rows.
    Sum(Name),
    /// `crash NAME`: the client of a consumer is opened again from its keeper.
    Crash(Name),
    /// `stop NAME before` or `stop NAME after`: the next commit of a consumer fails. A second such line takes the place
    /// of the first.
    Stop {
        /// The consumer.
        name: Name,
        /// Whether the state is then the one after the commit; else it is the one before it.
        after: bool,
    },
    /// `stream SCN FILTER MAX`: asks the relay for the next windows, without a consumer.
    Stream {
        /// The SCN behind which they are, 0 to 9,223,372,036,854,775,807.
        scn: u64,
        /// Which rows are asked for.
        filter: Filter,
        /// The most bytes that the reply may have, 1 to 16,777,216.
        max: u32,
    },
    /// `log N`: the log of the bootstrap service takes the next N windows that the relay keeps, 1 to 1,000,000, or
    /// those there are.
    Log(u64),
    /// `apply N`: the table of the bootstrap service takes the next N logged windows, 1 to 1,000,000, or those there
    /// are.
    Apply(u64),
    /// `trim SCN`: the log of the bootstrap service may drop windows up to this SCN, 0 to 9,223,372,036,854,775,807.
    Trim(u64),
    /// `restart boot`: the bootstrap service is opened again from its log and its keeper.
    RestartBoot,
}

impl Line {
    /// Whether its numbers are in the ranges of the grammar, where these are narrower than those of their types, and a
    /// commit has a change. Each line that `read_line` gives is in range.
    pub fn is_in_range(&self) -> bool
        ensures { result ≡ is_in_range self.now }
    {
        match self {
            Line::Relay { bytes, windows } => is_room(*bytes, *windows),
            Line::Commit { changes, .. } => !changes.items().is_empty(),
            Line::Gen { seed, count } => is_generated(*seed, *count),
            Line::Feed(count) | Line::Log(count) | Line::Apply(count) => is_count(*count),
            Line::Poll { max, .. } => is_most(*max),
            Line::Stream { scn, max, .. } => *scn <= MAX_SCN && is_most(*max),
            Line::Trim(scn) => *scn <= MAX_SCN,
            _ => true,
        }
    }
}

fn is_room(bytes: u64, windows: u32) -> bool
    ensures { result ≡ is_room bytes windows }
{
    MIN_ROOM <= bytes && bytes <= MAX_ROOM && 1 <= windows && u64::from(windows) <= MAX_WINDOWS
}

fn is_count(count: u64) -> bool
    ensures { result ≡ is_count count }
{
    1 <= count && count <= MAX_COUNT
}

fn is_most(max: u32) -> bool
    ensures { result ≡ is_most max }
{
    1 <= max && u64::from(max) <= MAX_REPLY
}

fn is_generated(seed: u32, count: u32) -> bool
    ensures { result ≡ is_generated seed count }
{
    u64::from(seed) <= MAX_SEED && 1 <= count && u64::from(count) <= MAX_GENERATED
}
