ghost use Rattle.std.specs.Prelude.{◌≡◌, ℕ, [], List, IsSome, IfSome, IfOk, OnOk};
ghost use Rattle.bus_types.specs.Window.{Span};
ghost use Rattle.bus_types.specs.Timeline.{IsTimeline};
ghost use Rattle.bus_types.specs.Relay.{Relay, StandsFor, answer_of};
ghost use Rattle.partition_filter.specs.Selection.{test_of};
ghost use Rattle.event_codec.specs.Forms.{bytes_of};
ghost use Rattle.event_codec.specs.Reply.{reply_bytes};
ghost use Rattle.checkpoint.specs.declared.mark.Mark.{Mark};
ghost use Rattle.bus_stores.specs.Memory.{last_mark};
ghost use Rattle.client_switch.specs.Client.{IsAskOf, IsStored, asks};
ghost use Rattle.bus_wire.specs.True.{Boot};
ghost use Rattle.history_core.specs.Script.{stopped_line};
ghost use Rattle.consumer_lines.specs.Shown.{stage_of};
ghost use Rattle.history_core.specs.Bus.{boot_numbers, IsBooted, IsMember};
ghost use Rattle.history_core.specs.Booting.{BootedAt};
ghost use Rattle.history_core.specs.Acting.{IsReopened, Polls};
ghost use Rattle.history_core.specs.Polling.{answered, Comes};

use crate::boot::{self, MemoryBoot};
use crate::member::Member;
use crate::text;
use bus_stores::Stop;
use bus_types::NoMemory;
use bus_wire::Ask;
use client_switch::{AskRefusal, TakeFault};
use consumer_lines::stage_of;
use dispatcher::NoCallbacks;
use partition_filter::Filter;
use relay_core::{Buffer, relay_answer};
use std::alloc::Global;

// The bytes of the relay's reply to who asks for windows, in place of what there was.
fn streamed<B: Buffer>(
    alloc: Global,
    relay: &B,
    scn: u64,
    filter: &Filter,
    max: u32,
    reply: &mut Vec<u8>,
) -> Result<(), NoMemory>
    ensures { OnOk result (reply.new.items ≡ reply_bytes (answer_of (B.relay relay.now) scn (test_of filter.now) max)) }
{
    reply.clear();
    relay_answer(alloc, relay, scn, filter, max, reply)?;
    Ok(())
}

// The bytes of the reply to an ask, in place of what there was: the relay's to who asks for windows, and else the
// bootstrap's.
fn answer<B: Buffer>(
    alloc: Global,
    relay: &B,
    boot: &mut MemoryBoot,
    ask: &Ask,
    reply: &mut Vec<u8>,
) -> Result<(), NoMemory>
    requires { (ws : List Span) × IsTimeline ws × IsBooted ws boot.old }
    ensures reply { OnOk result ((ws : List Span) → StandsFor ws (B.relay relay.now) → IsBooted ws boot.old
        → reply.new.items ≡ bytes_of (answered ws (B.relay relay.now) (boot_numbers boot.old) ask.now)) }
    ensures boot { OnOk result ((ws : List Span) → IsTimeline ws → IsBooted ws boot.old → BootedAt ws (boot_numbers boot.old) boot.new) }
{
    match ask {
        Ask::Stream { scn, filter, max } => streamed(alloc, relay, *scn, filter, *max, reply),
        _ => {
            *reply = boot::answer(alloc, boot, ask)?;
            Ok(())
        }
    }
}

impl Member {
    /// One ask of the relay or of the bootstrap, and what is made of the reply, whose bytes take the place of those before:
    /// at most one commit. The text is what it prints. After want of memory neither it nor the bootstrap is used again.
    pub fn poll<B: Buffer>(
        &mut self,
        alloc: Global,
        relay: &B,
        boot: &mut MemoryBoot,
        max: u32,
        reply: &mut Vec<u8>,
    ) -> Result<Vec<u8>, NoMemory>
        requires { (ws : List Span) × StandsFor ws (B.relay relay.now) × IsBooted ws boot.old × IsMember ws self.old }
        ensures polls { IfOk result (λ text. (ws : List Span) → StandsFor ws (B.relay relay.now) → IsBooted ws boot.old
            → IsMember ws self.old → Polls ws (B.relay relay.now) (boot_numbers boot.old) max text.items self.old self.new) }
        ensures boot { OnOk result ((ws : List Span) → IsTimeline ws → IsBooted ws boot.old → BootedAt ws (boot_numbers boot.old) boot.new) }
    {
        let ask = self.ask(alloc, max)?;
        answer(alloc, relay, boot, &ask, reply)?;
        self.follow(alloc, &ask, reply)
    }

    // What its client asks.
    fn ask(&self, alloc: Global, max: u32) -> Result<Ask, NoMemory>
        requires { (ws : List Span) × IsMember ws self.now }
        ensures { IfOk result (λ ask. IsAskOf self.now.client.filter (asks self.now.client max) ask) }
    {
        match self.client.ask(alloc, max) {
            Ok(ask) => Ok(ask),
            Err(AskRefusal::NoMemory) => Err(NoMemory),
            Err(AskRefusal::Halted) => unreachable!(),
        }
    }

    // Lets its client take the reply to what it asked.
    fn follow(&mut self, alloc: Global, ask: &Ask, reply: &[u8]) -> Result<Vec<u8>, NoMemory>
        requires { (ws : List Span) × (r : Relay) × (boot : Boot) × (most : ℕ) × Comes ws r boot most self.old ask.now reply.now }
        ensures { IfOk result (λ text. (ws : List Span) (r : Relay) (boot : Boot) (most : ℕ)
            → Comes ws r boot most self.old ask.now reply.now → Polls ws r boot most text.items self.old self.new) }
    {
        let stage = stage_of(self.client.mark());
        let armed = self.keeper.armed();
        match self
            .client
            .take(alloc, ask, reply, &mut self.keeper, &mut NoCallbacks)
        {
            Ok(took) => text::reply(alloc, &stage, &took.shape, reply.len() as u64),
            Err(TakeFault::StoreFault) => self.stopped(alloc, armed),
            Err(TakeFault::NoMemory) => Err(NoMemory),
            Err(TakeFault::Halted | TakeFault::BadReply { .. } | TakeFault::Refused { .. }) =>
                unreachable!(),
        }
    }

    // Opens its client again, whose commit met this stop.
    fn stopped(&mut self, alloc: Global, stop: Option<Stop>) -> Result<Vec<u8>, NoMemory>
        requires sound { self.old.store.fails ≡ [] }
        requires stored { (mark : Mark) × IsStored (last_mark self.old.store.marks) mark }
        requires some { IsSome stop }
        ensures opened { OnOk result (IsReopened self.old self.new) }
        ensures text { IfOk result (λ text. IfSome stop (λ s. text.items ≡ stopped_line s)) }
    {
        self.reopen(alloc)?;
        match stop {
            Some(stop) => text::stopped(alloc, stop),
            None => unreachable!(),
        }
    }
}
