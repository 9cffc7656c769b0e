ghost use Rattle.std.specs.Prelude.{◌≡◌, ◌≤◌, [], List, ℕ, IfOk, OnOk};
ghost use Rattle.bus_types.specs.Window.{Span};
ghost use Rattle.bus_types.specs.Timeline.{IsTimeline};
ghost use Rattle.event_codec.specs.Forms.{bytes_of};
ghost use Rattle.bus_wire.specs.Asks.{question_of, test_in, AsksBootstrap};
ghost use Rattle.bus_wire.specs.True.{boot_reply};
ghost use Rattle.history_core.specs.Script.{start};
ghost use Rattle.history_core.specs.Bus.{boot_numbers, IsBooted};
ghost use Rattle.history_core.specs.Steps.{end_after};
ghost use Rattle.history_core.specs.Booting.{MemoryParts, AreParts, BootedAt, logged_to, applied_to, trimmed_to, CanLog, HasNext, IsNextReply, CanTake};

use bootstrap_core::{Boot, BootFault, BootOpen, TakeLog};
use bus_stores::{MemoryKeeper, MemoryLog};
use bus_types::NoMemory;
use bus_wire::Ask;
use partition_filter::Filter;
use relay_core::{Buffer, Served, relay_answer};
use std::alloc::Global;
use std::mem;

/// The bootstrap of a bus: over a log and a keeper in memory.
pub(crate) type MemoryBoot = Boot<MemoryLog, MemoryKeeper>;

/// The most bytes of windows that its log holds.
const MOST_LOGGED: u64 = u64::MAX;

/// The most bytes of a reply that it asks of the relay.
const MOST_BYTES: u32 = 16_777_216;

/// The most windows that are applied in one commit.
const MOST_APPLIED: u64 = 32;

/// A bootstrap of which nothing was logged.
pub(crate) fn new_boot(alloc: Global) -> Result<MemoryBoot, NoMemory>
    ensures booted { IfOk result (IsBooted []) }
    ensures numbers { IfOk result (λ boot. boot_numbers boot ≡ start.boot) }
{
    let log = MemoryLog::new(alloc, MOST_LOGGED, &[])?;
    let keeper = MemoryKeeper::new(alloc, &[])?;
    open(alloc, log, keeper)
}

// Opens a bootstrap over a log and a keeper that stand for a timeline and fail at no call.
fn open(alloc: Global, log: MemoryLog, keeper: MemoryKeeper) -> Result<MemoryBoot, NoMemory>
    requires { (ws : List Span) × (b : MemoryParts) × AreParts ws b log keeper }
    ensures { IfOk result (λ boot. (ws : List Span) (b : MemoryParts) → AreParts ws b log keeper → BootedAt ws (boot_numbers b) boot) }
{
    match Boot::open(alloc, log, keeper) {
        Ok(boot) => Ok(boot),
        Err((BootOpen::NoMemory, _, _)) => Err(NoMemory),
        Err(_) => unreachable!(),
    }
}

/// Opens a bootstrap again over its log and its keeper. After want of memory it is another one.
pub(crate) fn restart(alloc: Global, boot: &mut MemoryBoot) -> Result<(), NoMemory>
    requires { (ws : List Span) × IsBooted ws boot.old }
    ensures { OnOk result ((ws : List Span) → IsBooted ws boot.old → BootedAt ws (boot_numbers boot.old) boot.new) }
{
    let old = mem::replace(boot, new_boot(alloc)?);
    let (log, keeper) = old.parts();
    *boot = open(alloc, log, keeper)?;
    Ok(())
}

/// Logs the next so many windows that the relay keeps, or those there are. The relay has evicted none that wasn't logged.
pub(crate) fn log_windows<B: Buffer>(
    alloc: Global,
    relay: &B,
    boot: &mut MemoryBoot,
    count: u64,
) -> Result<(), NoMemory>
    requires { (ws : List Span) × CanLog ws (B.relay relay.now) boot.old }
    ensures { OnOk result ((ws : List Span) → CanLog ws (B.relay relay.now) boot.old
        → BootedAt ws (logged_to ws (B.relay relay.now) (boot_numbers boot.old) count) boot.new) }
{
    let mut left = count;
    while left > 0 {
        left -= log_some(alloc, relay, boot, left)?;
    }
    Ok(())
}

// Logs the first windows of one reply of the relay, at most so many, and answers how many; where the relay has no more, it
// answers the most.
fn log_some<B: Buffer>(
    alloc: Global,
    relay: &B,
    boot: &mut MemoryBoot,
    most: u64,
) -> Result<u64, NoMemory>
    requires some { 1 ≤ most }
    requires can { (ws : List Span) × CanLog ws (B.relay relay.now) boot.old }
    ensures some { IfOk result (λ n. 1 ≤ n) }
    ensures most { IfOk result (λ n. n ≤ most) }
    ensures logs { IfOk result (λ n. (ws : List Span) → CanLog ws (B.relay relay.now) boot.old
        → BootedAt ws (logged_to ws (B.relay relay.now) (boot_numbers boot.old) n) boot.new) }
{
    if relay.tail() <= boot.high() {
        return Ok(most);
    }
    let (reply, count) = next_reply(alloc, relay, boot.high())?;
    let count = most.min(u64::from(count));
    take(alloc, boot, &reply, count as u32)?;
    Ok(count)
}

// The relay's reply to who has all windows up to an SCN, of which it keeps the next one, and how many windows the reply has.
fn next_reply<B: Buffer>(alloc: Global, relay: &B, scn: u64) -> Result<(Vec<u8>, u32), NoMemory>
    requires { (ws : List Span) × HasNext ws (B.relay relay.now) scn }
    ensures { IfOk result (λ r. (ws : List Span) → HasNext ws (B.relay relay.now) scn → IsNextReply ws (B.relay relay.now).tail scn r.0.items r.1) }
{
    let mut reply = Vec::new(alloc);
    let served = relay_answer(
        alloc,
        relay,
        scn,
        &Filter::everything(),
        MOST_BYTES,
        &mut reply,
    )?;
    match served {
        Served::Windows { count, .. } => Ok((reply, count)),
        Served::NotFound(_) | Served::Empty(_) | Served::TooSmall(_) => unreachable!(),
    }
}

// Logs the first windows of a reply.
fn take(alloc: Global, boot: &mut MemoryBoot, reply: &[u8], count: u32) -> Result<(), NoMemory>
    requires { (ws : List Span) × (end : ℕ) × CanTake ws end count boot.old reply.now }
    ensures { OnOk result ((ws : List Span) (end : ℕ) → CanTake ws end count boot.old reply.now
        → BootedAt ws (record (boot_numbers boot.old) { high = end_after ws (boot_numbers boot.old).high end count }) boot.new) }
{
    match boot.take_log(alloc, reply, count) {
        Ok(_) => Ok(()),
        Err(TakeLog::NoMemory) => Err(NoMemory),
        Err(_) => unreachable!(),
    }
}

/// Applies the next so many logged windows, or those there are.
pub(crate) fn apply_windows(
    alloc: Global,
    boot: &mut MemoryBoot,
    count: u64,
) -> Result<(), NoMemory>
    requires { (ws : List Span) × IsTimeline ws × IsBooted ws boot.old }
    ensures { OnOk result ((ws : List Span) → IsTimeline ws → IsBooted ws boot.old
        → BootedAt ws (applied_to ws (boot_numbers boot.old) count) boot.new) }
{
    let mut left = count;
    while left > 0 {
        left -= apply_some(alloc, boot, left)?;
    }
    Ok(())
}

// Applies the next logged windows, at most so many, in one commit, and answers how many; where there is none, it answers the
// most.
fn apply_some(alloc: Global, boot: &mut MemoryBoot, most: u64) -> Result<u64, NoMemory>
    requires some { 1 ≤ most }
    requires can { (ws : List Span) × IsTimeline ws × IsBooted ws boot.old }
    ensures some { IfOk result (λ n. 1 ≤ n) }
    ensures most { IfOk result (λ n. n ≤ most) }
    ensures applies { IfOk result (λ n. (ws : List Span) → IsTimeline ws → IsBooted ws boot.old
        → BootedAt ws (applied_to ws (boot_numbers boot.old) n) boot.new) }
{
    if boot.high() <= boot.applied() {
        return Ok(most);
    }
    let count = most.min(MOST_APPLIED);
    apply(alloc, boot, count as u32)?;
    Ok(count)
}

// Applies the next at most so many logged windows in one commit.
fn apply(alloc: Global, boot: &mut MemoryBoot, count: u32) -> Result<(), NoMemory>
    requires some { 1 ≤ count }
    requires few { count ≤ 32 }
    requires can { (ws : List Span) × IsTimeline ws × IsBooted ws boot.old }
    ensures { OnOk result ((ws : List Span) → IsTimeline ws → IsBooted ws boot.old
        → BootedAt ws (applied_to ws (boot_numbers boot.old) count) boot.new) }
{
    match boot.apply(alloc, count) {
        Ok(_) => Ok(()),
        Err(BootFault::NoMemory) => Err(NoMemory),
        Err(_) => unreachable!(),
    }
}

/// Moves its base up to an SCN.
pub(crate) fn trim(alloc: Global, boot: &mut MemoryBoot, scn: u64) -> Result<(), NoMemory>
    requires { (ws : List Span) × IsTimeline ws × IsBooted ws boot.old }
    ensures { OnOk result ((ws : List Span) → IsTimeline ws → IsBooted ws boot.old
        → BootedAt ws (trimmed_to ws (boot_numbers boot.old) scn) boot.new) }
{
    match boot.trim(alloc, scn) {
        Ok(_) => Ok(()),
        Err(BootFault::NoMemory) => Err(NoMemory),
        Err(_) => unreachable!(),
    }
}

/// The bytes of its reply to an ask that isn't for a stream.
pub(crate) fn answer(alloc: Global, boot: &mut MemoryBoot, ask: &Ask) -> Result<Vec<u8>, NoMemory>
    requires bootstrap { AsksBootstrap ask.now }
    requires booted { (ws : List Span) × IsTimeline ws × IsBooted ws boot.old }
    ensures reply { IfOk result (λ reply. (ws : List Span) → IsTimeline ws → IsBooted ws boot.old
        → reply.items ≡ bytes_of (boot_reply ws (test_in ask.now) (boot_numbers boot.old) (question_of ask.now))) }
    ensures boot { OnOk result ((ws : List Span) → IsTimeline ws → IsBooted ws boot.old → BootedAt ws (boot_numbers boot.old) boot.new) }
{
    let mut reply = Vec::new(alloc);
    match boot.answer(alloc, ask, &mut reply) {
        Ok(_) => Ok(reply),
        Err(BootFault::NoMemory) => Err(NoMemory),
        Err(_) => unreachable!(),
    }
}
