ghost use Rattle.std.specs.Prelude.{◌≡◌, ◌≤◌, ◌⊎◌, ℕ, false, List, OnOk, IfErr};
ghost use Rattle.bus_types.specs.Causes.{Rose};
ghost use Rattle.bootstrap_core.specs.declared.fault.BootOpen.TheVariants as opens;
ghost use Rattle.bootstrap_core.specs.Boot.{told};
ghost use Rattle.bootstrap_core.specs.Opening.{Stores};
ghost use Rattle.bus_node.specs.declared.status.NodeStatus.TheVariants as statuses;
ghost use Rattle.bootstrap_node.specs.Rounds.{Stopped, IsBadlyAnswered, IsBadlyReplied};
ghost use Rattle.bootstrap_node.specs.Ends.{IsOpenedRun, IsRun, IsUnopened, IsBootStatus, LeavesDoor, LeavesLink};
ghost use Rattle.bootstrap_node.specs.Running.{RunEnds, Ends, EndEnds};

use crate::printing::print_numbers;
use crate::rounds::make_rounds;
use crate::serving::serve;
use crate::stop::{Stop, open_status, status_of};
use bootstrap_core::Boot;
use bus_io::Sink;
use bus_link::Link;
use bus_node::{BootstrapWords, NodeStatus};
use bus_stores::{Keeper, WindowLog};
use std::alloc::Global;
use std::sync::Wait;

/// Runs a bootstrap as the words say. It opens over the log and the keeper, at the boot mark that the keeper stores; makes so many
/// rounds; then listens at its port and serves so many connections, one after another; then prints `boot B A H` with its base, its
/// applied SCN and its high SCN, and ends with `Done`. Log and keeper are handed back at every status.
///
/// A round makes one connection to the relay's port and asks for the windows behind the log's newest one, with all rows, in at
/// most 16,777,216 bytes. It logs the first 32 windows of the reply, or those there are, and applies the next 32 logged ones to the
/// table. Where the relay has evicted windows it prints `gap F`, with the SCN of the newest evicted one, and where the log has no
/// room for the next window `full N`, with the bytes that the window needs: each at the first time alone, and the rounds go on.
///
/// `BadMark`, `Ahead` and `Hole` come exactly where the bootstrap doesn't open for that reason; nothing is done then. `BadAnswer`
/// comes exactly where what the relay wrote doesn't begin with an answer, and `BadReply` exactly where the body is no lawful reply, or
/// its first window doesn't follow the log's newest one, with the place of the fault. `StoreFault` comes only where the count of the
/// log or the keeper rose, `WriteFault` only where that of the output rose, and `LinkFault` only where that of the link did: it couldn't
/// connect or listen, a connection of a round failed, or an accept failed. `NoMemory` comes where memory ran out, also in a served
/// connection. A round at fault is the last one; it decides the status, and nothing is served. A fault of a served connection ends
/// that connection alone.
pub fn run_bootstrap<R: Wait, W: Sink, L: Link, G: WindowLog + Drop, K: Keeper + Drop>(
    rt: &R,
    alloc: Global,
    words: &BootstrapWords,
    out: &mut W,
    link: &mut L,
    log: G,
    keeper: K,
) -> (NodeStatus, G, K)
    // The rounds were made, the connections were served, and the numbers were printed.
    ensures done { result.0 ≡ NodeStatus.Done → IsOpenedRun G.state K.state (IsRun L.Peer.given L.Peer.left L.Peer.written G.state K.state words.now
        (record { link = L.told link.old; text = W.written out.old; link_faults = L.faults link.old; text_faults = W.faults out.old })
        (record { link = L.told link.new; text = W.written out.new; link_faults = L.faults link.new; text_faults = W.faults out.new })) log result.1 keeper result.2 }

    // The last exchange gave no answer, or no lawful reply that follows the log.
    ensures bad_answer { result.0 ≡ NodeStatus.BadAnswer → IsOpenedRun G.state K.state (λ old new. Stopped L.Peer.given L.Peer.left L.Peer.written
        (IsBadlyAnswered L.Peer.given L.Peer.left L.Peer.written words.now.relay) words.now.relay words.now.rounds old new
        (record { link = L.told link.old; text = W.written out.old; link_faults = L.faults link.old; text_faults = W.faults out.old })
        (record { link = L.told link.new; text = W.written out.new; link_faults = L.faults link.new; text_faults = W.faults out.new })) log result.1 keeper result.2 }
    ensures bad_reply { (place : ℕ) → result.0 ≡ NodeStatus.BadReply place → IsOpenedRun G.state K.state (λ old new. Stopped L.Peer.given L.Peer.left L.Peer.written
        (IsBadlyReplied L.Peer.given L.Peer.left L.Peer.written place words.now.relay) words.now.relay words.now.rounds old new
        (record { link = L.told link.old; text = W.written out.old; link_faults = L.faults link.old; text_faults = W.faults out.old })
        (record { link = L.told link.new; text = W.written out.new; link_faults = L.faults link.new; text_faults = W.faults out.new })) log result.1 keeper result.2 }

    // Nothing was done.
    ensures bad_mark { result.0 ≡ NodeStatus.BadMark → IsUnopened G.state K.state opens.BadMark log result.1 keeper result.2
        (record { link = L.told link.old; text = W.written out.old; link_faults = L.faults link.old; text_faults = W.faults out.old })
        (record { link = L.told link.new; text = W.written out.new; link_faults = L.faults link.new; text_faults = W.faults out.new }) }
    ensures ahead { (applied high : ℕ) → result.0 ≡ NodeStatus.Ahead applied high → IsUnopened G.state K.state (opens.Ahead applied high) log result.1 keeper result.2
        (record { link = L.told link.old; text = W.written out.old; link_faults = L.faults link.old; text_faults = W.faults out.old })
        (record { link = L.told link.new; text = W.written out.new; link_faults = L.faults link.new; text_faults = W.faults out.new }) }
    ensures hole { (base floor : ℕ) → result.0 ≡ NodeStatus.Hole base floor → IsUnopened G.state K.state (opens.Hole base floor) log result.1 keeper result.2
        (record { link = L.told link.old; text = W.written out.old; link_faults = L.faults link.old; text_faults = W.faults out.old })
        (record { link = L.told link.new; text = W.written out.new; link_faults = L.faults link.new; text_faults = W.faults out.new }) }

    // A fault of the outside comes only where its count rose.
    ensures store_fault { result.0 ≡ NodeStatus.StoreFault → Rose (G.state log).faults (G.state result.1).faults
        ⊎ Rose (K.state keeper).faults (K.state result.2).faults }
    ensures link_fault { result.0 ≡ NodeStatus.LinkFault → Rose (L.faults link.old) (L.faults link.new) }
    ensures write_fault { result.0 ≡ NodeStatus.WriteFault → Rose (W.faults out.old) (W.faults out.new) }

    // Its other statuses are those of other nodes.
    ensures status { IsBootStatus result.0 }

    // Each connection of its own and the door were handed back.
    ensures back { LeavesLink words.now (L.told link.old) (L.told link.new) }
{
    run(rt, alloc, words, out, link, log, keeper)
}

// Runs a bootstrap as the words say.
fn run<R: Wait, W: Sink, L: Link, G: WindowLog + Drop, K: Keeper + Drop>(
    rt: &R,
    alloc: Global,
    words: &BootstrapWords,
    out: &mut W,
    link: &mut L,
    log: G,
    keeper: K,
) -> (NodeStatus, G, K)
    ensures ends { Ends L.Peer.given L.Peer.left L.Peer.written G.state K.state result.0 words.now log result.1 keeper result.2
        (record { link = L.told link.old; text = W.written out.old; link_faults = L.faults link.old; text_faults = W.faults out.old })
        (record { link = L.told link.new; text = W.written out.new; link_faults = L.faults link.new; text_faults = W.faults out.new }) }
    ensures back { LeavesLink words.now (L.told link.old) (L.told link.new) }
{
    match Boot::open(alloc, log, keeper) {
        Ok(boot) => {
            let (ended, boot) = run_opened(rt, alloc, words, out, link, boot);
            let (log, keeper) = boot.parts();
            (status_of(ended), log, keeper)
        }
        Err((fault, log, keeper)) => (open_status(fault), log, keeper),
    }
}

// Makes the rounds of a bootstrap, and then serves it.
fn run_opened<R: Wait, W: Sink, L: Link, G: WindowLog + Drop, K: Keeper + Drop>(
    rt: &R,
    alloc: Global,
    words: &BootstrapWords,
    out: &mut W,
    link: &mut L,
    boot: Boot<G, K>,
) -> (Result<(), Stop>, Boot<G, K>)
    requires runs { boot.halted ≡ false }
    requires stored { Stores (K.state boot.keeper) boot.mark }
    ensures ends { RunEnds L.Peer.given L.Peer.left L.Peer.written G.state K.state result.0 words.now
        (record { link = L.told link.old; text = W.written out.old; link_faults = L.faults link.old; text_faults = W.faults out.old })
        (record { link = L.told link.new; text = W.written out.new; link_faults = L.faults link.new; text_faults = W.faults out.new })
        (told G.state K.state boot) (told G.state K.state result.1) }
    ensures back { LeavesLink words.now (L.told link.old) (L.told link.new) }
{
    let mut boot = boot;
    match make_rounds(alloc, words, out, link, &mut boot) {
        Ok(()) => serve_and_print(rt, alloc, words, out, link, boot),
        Err(stop) => (Err(stop), boot),
    }
}

// Serves a bootstrap, and then prints its numbers.
fn serve_and_print<R: Wait, W: Sink, L: Link, G: WindowLog + Drop, K: Keeper + Drop>(
    rt: &R,
    alloc: Global,
    words: &BootstrapWords,
    out: &mut W,
    link: &mut L,
    boot: Boot<G, K>,
) -> (Result<(), Stop>, Boot<G, K>)
    requires runs { boot.halted ≡ false }
    requires stored { Stores (K.state boot.keeper) boot.mark }
    ensures ends { EndEnds L.Peer.given L.Peer.left L.Peer.written G.state K.state result.0 words.now
        (record { link = L.told link.old; text = W.written out.old; link_faults = L.faults link.old; text_faults = W.faults out.old })
        (record { link = L.told link.new; text = W.written out.new; link_faults = L.faults link.new; text_faults = W.faults out.new })
        (told G.state K.state boot) (told G.state K.state result.1) }
    ensures back { LeavesDoor words.now.port (L.told link.old) (L.told link.new) }
{
    let (served, boot) = serve(rt, alloc, words, link, boot);
    match served {
        Ok(()) => {
            let (base, applied, high) = (boot.base(), boot.applied(), boot.high());
            (print_numbers(alloc, out, base, applied, high), boot)
        }
        Err(stop) => (Err(stop), boot),
    }
}
