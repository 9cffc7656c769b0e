ghost use Rattle.std.specs.Prelude.{◌≡◌, ◌≤◌, false, List, length, IfOk, IfErr, OnOk, OnErr};
ghost use Rattle.bootstrap_core.specs.Boot.{told};
ghost use Rattle.bootstrap_core.specs.Logging.{log_ask};
ghost use Rattle.bus_node.specs.Exchange.{Exchanged, HandedBack, IsAnswered};
ghost use Rattle.bootstrap_node.specs.Rounds.{Made, Stopped, MakesRound, BreaksRound, StopsRound, Round};
ghost use Rattle.bootstrap_node.specs.Asking.{AsksNot, MovesNot, Moves, TakesReply, TakesNot, LaterBoot};

use crate::printing::{Noted, print_note};
use crate::stop::{Stop, stop_of};
use bootstrap_core::{Boot, BootFault};
use bus_io::Sink;
use bus_link::Link;
use bus_node::{BootstrapWords, ExchangeFault, exchange};
use bus_stores::{Keeper, WindowLog};
use bus_wire::Ask;
use partition_filter::Filter;
use std::alloc::Global;

/// The most bytes of a reply that is asked of the relay.
const MOST_BYTES: u32 = 16_777_216;

/// The most windows that a round logs, and the most that it applies.
const MOST_LOGGED: u32 = 32;

/// Makes so many rounds as the words say, or those up to the first that stops.
pub(crate) fn make_rounds<W: Sink, L: Link, G: WindowLog, K: Keeper>(
    alloc: Global,
    words: &BootstrapWords,
    out: &mut W,
    link: &mut L,
    boot: &mut Boot<G, K>,
) -> Result<(), Stop>
    requires runs { boot.old.halted ≡ false }
    ensures made { OnOk result ((rounds : List (Round L.Peer)) × (length rounds ≡ words.now.rounds) × Made L.Peer.given L.Peer.left L.Peer.written words.now.relay false false
        (told G.state K.state boot.old) (told G.state K.state boot.new)
        (record { link = L.told link.old; text = W.written out.old; link_faults = L.faults link.old; text_faults = W.faults out.old })
        (record { link = L.told link.new; text = W.written out.new; link_faults = L.faults link.new; text_faults = W.faults out.new }) rounds) }
    ensures runs { OnOk result (boot.new.halted ≡ false) }
    ensures stopped { IfErr result (λ stop. Stopped L.Peer.given L.Peer.left L.Peer.written (StopsRound L.Peer.given L.Peer.left L.Peer.written stop words.now.relay)
        words.now.relay words.now.rounds
        (told G.state K.state boot.old) (told G.state K.state boot.new)
        (record { link = L.told link.old; text = W.written out.old; link_faults = L.faults link.old; text_faults = W.faults out.old })
        (record { link = L.told link.new; text = W.written out.new; link_faults = L.faults link.new; text_faults = W.faults out.new })) }
{
    let mut noted = Noted {
        gap: false,
        full: false,
    };
    let mut body = Vec::new(alloc);
    for _done in 0..words.rounds {
        match make_round(alloc, words.relay, out, link, boot, &mut body, &mut noted) {
            Ok(()) => {}
            Err(stop) => return Err(stop),
        }
    }
    Ok(())
}

// One round: it asks the relay, logs what it can of the reply, and moves the table.
fn make_round<W: Sink, L: Link, G: WindowLog, K: Keeper>(
    alloc: Global,
    relay: u16,
    out: &mut W,
    link: &mut L,
    boot: &mut Boot<G, K>,
    body: &mut Vec<u8>,
    noted: &mut Noted,
) -> Result<(), Stop>
    requires runs { boot.old.halted ≡ false }
    ensures made { OnOk result (MakesRound L.Peer.given L.Peer.left L.Peer.written relay noted.old.gap noted.old.full noted.new.gap noted.new.full
        (told G.state K.state boot.old) (told G.state K.state boot.new)
        (record { link = L.told link.old; text = W.written out.old; link_faults = L.faults link.old; text_faults = W.faults out.old })
        (record { link = L.told link.new; text = W.written out.new; link_faults = L.faults link.new; text_faults = W.faults out.new })) }
    ensures runs { OnOk result (boot.new.halted ≡ false) }
    ensures breaks { IfErr result (λ stop. BreaksRound L.Peer.given L.Peer.left L.Peer.written stop relay
        (told G.state K.state boot.old) (told G.state K.state boot.new)
        (record { link = L.told link.old; text = W.written out.old; link_faults = L.faults link.old; text_faults = W.faults out.old })
        (record { link = L.told link.new; text = W.written out.new; link_faults = L.faults link.new; text_faults = W.faults out.new })) }
{
    match ask_relay(alloc, link, relay, boot, body) {
        Ok(()) => {}
        Err(stop) => return Err(stop),
    }
    match take_reply(alloc, out, boot, body, noted) {
        Ok(()) => Ok(()),
        Err(stop) => Err(stop),
    }
}

// Asks the relay for the windows behind the log's newest one.
fn ask_relay<L: Link, G: WindowLog, K: Keeper>(
    alloc: Global,
    link: &mut L,
    relay: u16,
    boot: &Boot<G, K>,
    body: &mut Vec<u8>,
) -> Result<(), Stop>
    ensures answered { OnOk result (Exchanged L.Peer (IsAnswered L.Peer.given L.Peer.left L.Peer.written (log_ask (G.state boot.now.log).high)
        body.new.items) relay (L.told link.old) (L.told link.new)) }
    ensures small { OnOk result (length body.new.items ≤ 16777216) }
    ensures stop { IfErr result (λ stop. AsksNot L.Peer.given L.Peer.left L.Peer.written stop (log_ask (G.state boot.now.log).high) relay
        (L.told link.old) (L.told link.new) (L.faults link.old) (L.faults link.new)) }
    ensures back { OnErr result (HandedBack L.Peer relay (L.told link.old) (L.told link.new)) }
    ensures later { L.faults link.old ≤ L.faults link.new }
{
    let ask = Ask::Stream {
        scn: boot.high(),
        filter: Filter::everything(),
        max: MOST_BYTES,
    };
    match exchange(alloc, link, relay, &ask, body) {
        Ok(()) => Ok(()),
        Err(ExchangeFault::LinkFault) => Err(Stop::LinkFault),
        Err(ExchangeFault::BadAnswer) => Err(Stop::BadAnswer),
        Err(ExchangeFault::NoMemory) => Err(Stop::NoMemory),
    }
}

// Logs what it can of a reply, prints a gap and a full log, and moves the table.
fn take_reply<W: Sink, G: WindowLog, K: Keeper>(
    alloc: Global,
    out: &mut W,
    boot: &mut Boot<G, K>,
    body: &[u8],
    noted: &mut Noted,
) -> Result<(), Stop>
    requires runs { boot.old.halted ≡ false }
    ensures took { OnOk result (TakesReply noted.old.gap noted.old.full noted.new.gap noted.new.full body.now
        (told G.state K.state boot.old) (told G.state K.state boot.new) (W.written out.old) (W.written out.new)) }
    ensures stop { IfErr result (λ stop. TakesNot stop body.now (told G.state K.state boot.old) (told G.state K.state boot.new)
        (W.written out.old) (W.written out.new) (W.faults out.old) (W.faults out.new)) }
    ensures later { LaterBoot (told G.state K.state boot.old) (told G.state K.state boot.new) (W.faults out.old) (W.faults out.new) }
{
    let took = boot.take_log(alloc, body, MOST_LOGGED);
    match stop_of(took) {
        None => {}
        Some(stop) => return Err(stop),
    }
    match print_note(alloc, out, noted, took) {
        Ok(()) => {}
        Err(stop) => return Err(stop),
    }
    match move_table(alloc, boot) {
        Ok(()) => Ok(()),
        Err(stop) => Err(stop),
    }
}

// Applies the next logged windows to the table.
fn move_table<G: WindowLog, K: Keeper>(alloc: Global, boot: &mut Boot<G, K>) -> Result<(), Stop>
    requires runs { boot.old.halted ≡ false }
    ensures moved { OnOk result (Moves (told G.state K.state boot.old) (told G.state K.state boot.new)) }
    ensures stop { IfErr result (λ stop. MovesNot stop (told G.state K.state boot.old) (told G.state K.state boot.new)) }
    ensures log_faults { (G.state boot.old.log).faults ≤ (G.state boot.new.log).faults }
    ensures faults { (K.state boot.old.keeper).faults ≤ (K.state boot.new.keeper).faults }
{
    let moved = boot.apply(alloc, MOST_LOGGED);
    let _lawful = boot.base();
    let _is_log = boot.high();
    match moved {
        Ok(_) => Ok(()),
        Err(BootFault::LogFailed) => Err(Stop::StoreFault),
        Err(BootFault::StoreFailed) => Err(Stop::StoreFault),
        Err(BootFault::Halted) => Err(Stop::StoreFault),
        Err(BootFault::NoMemory) => Err(Stop::NoMemory),
    }
}
