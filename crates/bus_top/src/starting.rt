ghost use Rattle.std.specs.Prelude.{◌≡◌, []};
ghost use Rattle.bus_stores.specs.MemoryLog.{MemoryWindows, log_of, new_windows};
ghost use Rattle.bus_node.specs.Words.{IsRelay, IsConsume};
ghost use Rattle.bus_top.specs.Nodes.{seen_of, outside_of, RelayEnds, ConsumerEnds, BootRuns, Runs};

use bootstrap_node::run_bootstrap;
use bus_io::{Sink, Source};
use bus_link::Link;
use bus_node::{
    BootstrapWords, ConsumeWords, NodeStatus, NodeWords, RelayWords, WordsFault, read_words,
};
use bus_stores::{Keeper, MemoryLog};
use consume_node::run_consumer;
use relay_node::run_relay;
use std::alloc::Global;
use std::sync::Wait;

/// The most bytes of windows that a bootstrap's log in memory holds.
const LOG_BYTES: u64 = 1_073_741_824;

/// What a node is given, and what it hands back.
#[derive(Drop)]
pub struct Outside<S, W, L, K> {
    /// The standard input, which a relay reads.
    pub input: S,
    /// The standard output.
    pub out: W,
    /// The link, by which it connects and listens.
    pub link: L,
    /// The keeper of a bootstrap's table or a consumer's rows.
    pub keeper: K,
}

/// Runs the node that some words start: a relay, a bootstrap or a consumer. It hands back what it was given; a bootstrap's log is
/// in memory, of at most 1,073,741,824 bytes of windows, and gone at the end.
///
/// `Usage` comes exactly where the words are no form of a node's command, and nothing was done then. What each node does, by its
/// status, is told at `run_relay`, `run_bootstrap` and `run_consumer`. `NoMemory` also comes where a log can't be made for want of
/// memory, or where words can't be read for want of it: these are of a node's plain form, and nothing was done then.
pub fn node<R: Wait, S: Source + Drop, W: Sink + Drop, L: Link + Drop, K: Keeper + Drop>(
    rt: &R,
    alloc: Global,
    words: &[String],
    outside: Outside<S, W, L, K>,
) -> (NodeStatus, Outside<S, W, L, K>)
    // What was read, written, asked and served, by the status.
    ensures runs { Runs L.Peer.given L.Peer.left L.Peer.written log_of K.state (new_windows LOG_BYTES []) words.now result.0
        (seen_of S.left W.written L.told S.faults W.faults L.faults outside)
        (seen_of S.left W.written L.told S.faults W.faults L.faults result.1)
        outside.keeper result.1.keeper }
{
    match read_words(alloc, words) {
        Ok(NodeWords::Relay(words)) => relay(rt, alloc, &words, outside),
        Ok(NodeWords::Bootstrap(words)) => bootstrap(rt, alloc, &words, outside),
        Ok(NodeWords::Consume(words)) => consume(alloc, words, outside),
        Err(WordsFault::Usage) => (NodeStatus::Usage, outside),
        Err(WordsFault::NoMemory) => (NodeStatus::NoMemory, outside),
    }
}

// Runs a relay.
fn relay<R: Wait, S: Source, W: Sink, L: Link, K>(
    rt: &R,
    alloc: Global,
    words: &RelayWords,
    mut outside: Outside<S, W, L, K>,
) -> (NodeStatus, Outside<S, W, L, K>)
    requires { IsRelay words.now }
    ensures ends { RelayEnds L.Peer.given L.Peer.left L.Peer.written words.now result.0
        (seen_of S.left W.written L.told S.faults W.faults L.faults outside)
        (seen_of S.left W.written L.told S.faults W.faults L.faults result.1) }
    ensures keeper { result.1.keeper ≡ outside.keeper }
{
    let status = run_relay(
        rt,
        alloc,
        words,
        &mut outside.input,
        &mut outside.out,
        &mut outside.link,
    );
    (status, outside)
}

// Runs a bootstrap over a new log in memory.
fn bootstrap<R: Wait, S: Source, W: Sink, L: Link, K: Keeper + Drop>(
    rt: &R,
    alloc: Global,
    words: &BootstrapWords,
    outside: Outside<S, W, L, K>,
) -> (NodeStatus, Outside<S, W, L, K>)
    ensures { (last : MemoryWindows) × BootRuns L.Peer.given L.Peer.left L.Peer.written log_of K.state words.now result.0
        (outside_of (seen_of S.left W.written L.told S.faults W.faults L.faults outside))
        (outside_of (seen_of S.left W.written L.told S.faults W.faults L.faults result.1)) (new_windows LOG_BYTES []) last outside.keeper result.1.keeper }
{
    let Outside {
        input,
        mut out,
        mut link,
        keeper,
    } = outside;
    match MemoryLog::new(alloc, LOG_BYTES, &[]) {
        Ok(log) => {
            let (status, _log, keeper) = run_over(
                rt, alloc, words, &mut out, &mut link, log, keeper,
            );
            (
                status,
                Outside {
                    input,
                    out,
                    link,
                    keeper,
                },
            )
        }
        Err(_) => (
            NodeStatus::NoMemory,
            Outside {
                input,
                out,
                link,
                keeper,
            },
        ),
    }
}

// Runs a bootstrap over a log.
fn run_over<R: Wait, W: Sink, L: Link, K: Keeper + Drop>(
    rt: &R,
    alloc: Global,
    words: &BootstrapWords,
    out: &mut W,
    link: &mut L,
    log: MemoryLog,
    keeper: K,
) -> (NodeStatus, MemoryLog, K)
    ensures { BootRuns L.Peer.given L.Peer.left L.Peer.written log_of K.state words.now result.0
        (record { link = L.told link.old; text = W.written out.old; link_faults = L.faults link.old; text_faults = W.faults out.old })
        (record { link = L.told link.new; text = W.written out.new; link_faults = L.faults link.new; text_faults = W.faults out.new })
        log result.1 keeper result.2 }
{
    run_bootstrap(rt, alloc, words, out, link, log, keeper)
}

// Runs a consumer.
fn consume<S: Source, W: Sink, L: Link, K: Keeper>(
    alloc: Global,
    words: ConsumeWords,
    mut outside: Outside<S, W, L, K>,
) -> (NodeStatus, Outside<S, W, L, K>)
    requires { IsConsume words }
    ensures { ConsumerEnds L.Peer.given L.Peer.left L.Peer.written words result.0
        (seen_of S.left W.written L.told S.faults W.faults L.faults outside) (seen_of S.left W.written L.told S.faults W.faults L.faults result.1)
        (K.state outside.keeper) (K.state result.1.keeper) }
{
    let status = run_consumer(
        alloc,
        words,
        &mut outside.out,
        &mut outside.link,
        &mut outside.keeper,
    );
    (status, outside)
}
