ghost use Rattle.std.specs.Prelude.{◌≡◌};
ghost use Rattle.bus_wire.specs.Lawful.{stream_answers, start_answers, log_answers, target_answers, answers};

use bus_types::{Cursor, MAX_PAYLOAD, MAX_WINDOW};
use event_codec::Answer;
use partition_filter::Filter;

/// What a client asks.
#[derive(Debug, Drop)]
pub enum Ask {
    /// The windows that a relay holds after an SCN.
    Stream {
        /// The SCN, or 0 for the first window.
        scn: u64,
        /// Which rows are meant.
        filter: Filter,
        /// The most bytes that the windows take.
        max: u32,
    },
    /// Where a bootstrap starts.
    Start {
        /// The SCN at which the client's rows are the table, or stood before they were mixed: it may not fall behind it.
        since: u64,
        /// Whether the client gives its rows up, so that only a snapshot helps.
        fresh: bool,
    },
    /// The rows that a bootstrap's table holds after a cursor.
    Scan {
        /// The SCN at which the scan began: rows of an earlier SCN don't serve.
        start: u64,
        /// The row after which they are asked for.
        cursor: Cursor,
        /// Which rows are meant.
        filter: Filter,
        /// The most bytes that the rows and their closing frame take.
        max: u32,
    },
    /// Where the replay behind a scan ends.
    Target {
        /// The SCN at which the scan began, where the replay begins.
        start: u64,
        /// The least SCN that it may end at: from `start` on.
        atleast: u64,
    },
    /// The windows that a bootstrap's log holds after an SCN, up to a target.
    Catchup {
        /// The SCN that the replay has come to, below the target.
        at: u64,
        /// The target.
        target: u64,
        /// Which rows are meant.
        filter: Filter,
        /// The most bytes that the windows take.
        max: u32,
    },
    /// The last change of each row that changed in a range of windows, of the rows after a cursor.
    Delta {
        /// The SCN after which the range begins, below the target.
        since: u64,
        /// The SCN with which it ends.
        target: u64,
        /// The row after which they are asked for.
        cursor: Cursor,
        /// Which rows are meant.
        filter: Filter,
        /// The most bytes that the changes and their closing frame take.
        max: u32,
    },
}

// The bytes of a chunk of one item, at most: a head, a payload and a closing frame.
const MAX_CHUNK: u64 = MAX_PAYLOAD as u64 + 33;

// Whether this stands in place of the windows after an SCN, in at most max bytes.
fn stream_answers(scn: u64, max: u32, answer: &Answer) -> bool
    ensures { result ≡ stream_answers scn max answer.now }
{
    match *answer {
        Answer::NotFound(floor) => scn < floor,
        Answer::Empty(end) => end <= scn,
        Answer::TooSmall(need) => u64::from(max) < need && need <= MAX_WINDOW,
        _ => false,
    }
}

// Whether this says where to start.
fn start_answers(since: u64, fresh: bool, answer: &Answer) -> bool
    ensures { result ≡ start_answers since fresh answer.now }
{
    match *answer {
        Answer::Behind(tail) => { if fresh { tail < since } else { tail <= since } }
        Answer::StartDelta(start) => !fresh && since < start,
        Answer::StartSnapshot(_) => true,
        _ => false,
    }
}

// Whether this stands in place of what a log holds from an SCN on, of which the next item has at most so many bytes.
fn log_answers(from: u64, least: u64, max: u32, most: u64, answer: &Answer) -> bool
    ensures { result ≡ log_answers from least max most answer.now }
{
    match *answer {
        Answer::TooSmall(need) => u64::from(max) < need && need <= most,
        Answer::Behind(tail) => tail < least,
        Answer::LogGone(start) => from < start,
        _ => false,
    }
}

// Whether this says where a replay goes to.
fn target_answers(from: u64, least: u64, answer: &Answer) -> bool
    ensures { result ≡ target_answers from least answer.now }
{
    match *answer {
        Answer::Behind(tail) => tail < least,
        Answer::LogGone(start) => from < start,
        Answer::Target(target) => least <= target && from <= target,
        _ => false,
    }
}

impl Ask {
    // Whether this answers it.
    pub(crate) fn is_answered_by(&self, answer: &Answer) -> bool
        ensures { result ≡ answers self.now answer.now }
    {
        match self {
            Ask::Stream { scn, max, .. } => stream_answers(*scn, *max, answer),
            Ask::Start { since, fresh } => start_answers(*since, *fresh, answer),
            Ask::Scan { start, max, .. } => log_answers(*start, *start, *max, MAX_CHUNK, answer),
            Ask::Target { start, atleast } => target_answers(*start, *atleast, answer),
            Ask::Catchup {
                at,
                target,
                max,
                ..
            } => log_answers(*at, *target, *max, MAX_WINDOW, answer),
            Ask::Delta {
                since,
                target,
                max,
                ..
            } => log_answers(*since, *target, *max, MAX_CHUNK, answer),
        }
    }
}
