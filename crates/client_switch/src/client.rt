ghost use Rattle.std.specs.Prelude.{◌≡◌, ◌≤◌, ◌↔◌, ℕ, true, false, List, [], ◌∷◌, is_some, IfOk, IfSome, IsErrOf};
ghost use Rattle.bus_types.specs.Causes.{Rose};
ghost use Rattle.bus_types.specs.Window.{Span};
ghost use Rattle.bus_types.specs.Timeline.{IsTimeline};
ghost use Rattle.partition_filter.specs.Selection.{test_of};
ghost use Rattle.checkpoint.specs.declared.mark.Mark.{Mark};
ghost use Rattle.checkpoint.specs.Mark.{IsMark, floor_of};
ghost use Rattle.bus_stores.specs.Keeper.{SameStore};
ghost use Rattle.dispatcher.specs.Callbacks.{with_calls, taken};
ghost use Rattle.dispatcher.specs.Callbacks.Callback.{OnRollback};
ghost use Rattle.client_switch.specs.Moves.{next_question};
ghost use Rattle.client_switch.specs.Moves.Wish.{NoWish};
ghost use Rattle.client_switch.specs.Client.{IsStored, Keeps, IsAskOf, asks, Takes, CountsKept, HasRefusal, FloorKept, HoldsGood, AreTrueOf, KeepsGood};
ghost use Rattle.client_switch.specs.Turning.{wish_of, CanStand, checkpoint_call, HoldsComing, Settles};

use crate::fault::{AskRefusal, ClientOpen, TakeFault};
use crate::turn::turn_of;
use crate::wish::Wish;
use bus_stores::{Keeper, StoreFault};
use bus_types::{Change, MarkText, NoMemory};
use bus_wire::{Ask, check_reply};
use checkpoint::{Mark, MarkFault};
use dispatcher::{Consumer, dispatch};
use event_codec::Shape;
use partition_filter::Filter;
use std::alloc::Global;
use std::marker::Model;

/// A reply that was taken.
#[derive(Clone, Copy, Debug, PartialEq, Eq)]
pub struct Took {
    /// What the reply was.
    pub shape: Shape,
    /// Whether there was a commit.
    pub committed: bool,
}

/// What a consumer holds beside its keeper's rows: a filter, the mark that its keeper stores, what it wants beside that,
/// and whether it has met a fault of its keeper.
#[derive(Debug, Drop)]
pub struct Client {
    filter: Filter,
    mark: Mark,
    wish: Wish,
    halted: bool,
    // A vector without changes, whose room the changes of the next reply take: it goes into the turn of a reply and comes
    // back from its commit.
    room: Vec<Change>,
}

impl Model for Client {
    ghost use Rattle.client_switch.specs.Client.{Held};

    ghost Value = { Held };

    ghost use Rattle.client_switch.specs.Turning.{wish_of, CanStand};

    ghost view = { λ c. record { filter = c.filter; mark = c.mark; wish = wish_of c.wish; halted = c.halted } };

    ghost invariant = { λ c. CanStand c.mark (wish_of c.wish) };
}

// The mark that a stored text is; without one a consumer is online at 0.
fn mark_in(alloc: Global, text: Option<MarkText>) -> Result<Mark, MarkFault>
    ensures found { IfOk result (λ mark. IsStored text mark) }
    ensures lawful { IfOk result IsMark }
    ensures bad { IsErrOf result MarkFault.BadMark → (mark : Mark) → IsStored text mark → ⊥ }
{
    match text {
        None => Ok(Mark::Online { scn: 0 }),
        Some(text) => Mark::read(alloc, &text),
    }
}

// The mark that a keeper holds.
fn stored_mark<K: Keeper>(alloc: Global, keeper: &mut K) -> Result<Mark, ClientOpen>
    ensures found { IfOk result (λ mark. Keeps (K.state keeper.new) mark) }
    ensures lawful { IfOk result IsMark }
    ensures bad { IsErrOf result ClientOpen.BadMark → IfSome (K.state keeper.new).content (λ c. (mark : Mark) → IsStored c.mark mark → ⊥) }
    ensures same { SameStore (K.state keeper.old) (K.state keeper.new) }
    ensures counts { CountsKept (K.state keeper.old) (K.state keeper.new) }
    ensures rose { IsErrOf result ClientOpen.StoreFault → Rose (K.state keeper.old).faults (K.state keeper.new).faults }
    ensures sound { IsErrOf result ClientOpen.StoreFault → IfSome (K.state keeper.old).stops (λ s. s.sound ≡ false) }
{
    let text = keeper.mark(alloc)?;
    Ok(mark_in(alloc, text)?)
}

// Tells of the text that was set, where one was, and answers whether one was.
fn tell_checkpoint<C: Consumer>(consumer: &mut C, text: &Option<MarkText>) -> bool
    ensures calls { C.calls consumer.new ≡ with_calls (checkpoint_call text.now) (C.calls consumer.old) }
    ensures later { C.refusals consumer.old ≤ C.refusals consumer.new }
    ensures committed { result ≡ is_some text.now }
{
    match text {
        None => false,
        Some(text) => {
            consumer.on_checkpoint(text);
            true
        }
    }
}

impl Client {
    /// Opens a client over what its keeper holds: at the stored mark, or online at 0 where there is none, and with no
    /// wish. `BadMark` comes only where the stored text is no mark's.
    pub fn open<K: Keeper>(
        alloc: Global,
        keeper: &mut K,
        filter: Filter,
    ) -> Result<Client, ClientOpen>
        ensures opened { IfOk result (λ c. (c.filter ≡ filter) × (c.wish ≡ NoWish) × (c.halted ≡ false) × Keeps (K.state keeper.new) c.mark) }
        ensures bad { IsErrOf result ClientOpen.BadMark → IfSome (K.state keeper.new).content (λ c. (mark : Mark) → IsStored c.mark mark → ⊥) }
        ensures same { SameStore (K.state keeper.old) (K.state keeper.new) }
        ensures counts { CountsKept (K.state keeper.old) (K.state keeper.new) }
        ensures rose { IsErrOf result ClientOpen.StoreFault → Rose (K.state keeper.old).faults (K.state keeper.new).faults }
        ensures sound { IsErrOf result ClientOpen.StoreFault → IfSome (K.state keeper.old).stops (λ s. s.sound ≡ false) }
    {
        let mark = stored_mark(alloc, keeper)?;
        Ok(Client {
            filter,
            mark,
            wish: Wish::Nothing,
            halted: false,
            room: Vec::new(alloc),
        })
    }

    /// The mark of what was taken so far.
    pub fn mark(&self) -> &Mark
        ensures value { result.now ≡ self.now.mark }
        ensures lawful { IsMark self.now.mark }
    {
        &self.mark
    }

    /// Which rows it follows.
    pub fn filter(&self) -> &Filter
        ensures { result.now ≡ self.now.filter }
    {
        &self.filter
    }

    /// Whether it has met a fault of its keeper, and so asks and takes nothing.
    pub fn is_halted(&self) -> bool
        ensures { result ≡ self.now.halted }
    {
        self.halted
    }

    /// What it asks next, for at most `max` bytes. `Halted` comes exactly after `take` answered `StoreFault`.
    pub fn ask(&self, alloc: Global, max: u32) -> Result<Ask, AskRefusal>
        ensures ask { IfOk result (λ ask. IsAskOf self.now.filter (asks self.now max) ask) }
        ensures halted { IsErrOf result AskRefusal.Halted ↔ (self.now.halted ≡ true) }
    {
        if self.halted {
            return Err(AskRefusal::Halted);
        }
        Ok(self.question(alloc, max)?)
    }

    // What its wish asks, or else its mark.
    fn question(&self, alloc: Global, max: u32) -> Result<Ask, NoMemory>
        ensures { IfOk result (λ ask. IsAskOf self.now.filter (asks self.now max) ask) }
    {
        match self.wish {
            Wish::Nothing => self.next_question(alloc, max),
            Wish::Start => Ok(self.start(false)),
            Wish::Fresh => Ok(self.start(true)),
        }
    }

    // What its mark asks.
    fn next_question(&self, alloc: Global, max: u32) -> Result<Ask, NoMemory>
        ensures { IfOk result (λ ask. IsAskOf self.now.filter (next_question self.now.mark max) ask) }
    {
        match self.mark {
            Mark::Online { scn } => {
                let filter = self.filter.copy(alloc)?;
                Ok(Ask::Stream { scn, filter, max })
            }
            Mark::Delta {
                since,
                target,
                cursor,
            } => {
                let filter = self.filter.copy(alloc)?;
                Ok(Ask::Delta {
                    since,
                    target,
                    cursor,
                    filter,
                    max,
                })
            }
            Mark::Snapshot { start, cursor, .. } => {
                let filter = self.filter.copy(alloc)?;
                Ok(Ask::Scan {
                    start,
                    cursor,
                    filter,
                    max,
                })
            }
            Mark::Scanned { since, start, top } => Ok(Ask::Target {
                start,
                atleast: since.max(top),
            }),
            Mark::Catchup { target, at, .. } => {
                let filter = self.filter.copy(alloc)?;
                Ok(Ask::Catchup {
                    at,
                    target,
                    filter,
                    max,
                })
            }
        }
    }

    // Where to begin again.
    fn start(&self, fresh: bool) -> Ask
        ensures { result ≡ Ask.Start (floor_of self.now.mark) fresh }
    {
        Ask::Start {
            since: self.mark.floor_of(),
            fresh,
        }
    }

    /// Takes a reply to what it asked: checks the bytes, tells the consumer of them, and then makes at most one commit of
    /// rows and mark.
    ///
    /// `Halted` comes exactly after an earlier `StoreFault`. `BadReply` comes where the bytes are no lawful reply, with
    /// the place of the first item that can't stand, or is missing or cut; nobody is told. `Refused` comes where the
    /// consumer refused a callback; it was then told to go back to the floor of the mark. `NoMemory` comes where memory
    /// ran out; the consumer was told of the reply and then to go back. In all four cases client, rows and mark are as
    /// before. `StoreFault` comes where the commit failed: rows and mark are as before it or as after it, and the client
    /// is halted.
    #[tactic(auto, using(crate::proofs::KeepingGood::unchanged))]
    pub fn take<K: Keeper, C: Consumer>(
        &mut self,
        alloc: Global,
        ask: &Ask,
        reply: &[u8],
        keeper: &mut K,
        consumer: &mut C,
    ) -> Result<Took, TakeFault>
        requires { (most : ℕ) × IsAskOf self.old.filter (asks self.old most) ask.now }
        ensures halted { IsErrOf result TakeFault.Halted ↔ (self.old.halted ≡ true) }
        ensures takes { Takes result self.old self.new ask.now reply.now (K.state keeper.old) (K.state keeper.new) (C.calls consumer.old)
            (C.calls consumer.new) }
        ensures refusals { HasRefusal (C.refusals consumer.old) (C.refusals consumer.new) result }
        ensures counts { CountsKept (K.state keeper.old) (K.state keeper.new) }
        ensures keeps { Keeps (K.state keeper.old) self.old.mark → self.new.halted ≡ false → Keeps (K.state keeper.new) self.new.mark }

        // Whatever the peer answers, the floor of the stored mark doesn't fall.
        ensures floor { Keeps (K.state keeper.old) self.old.mark → FloorKept (K.state keeper.old) (K.state keeper.new) }

        // Where the peer's reply is true of a timeline, rows and mark that are good for it stay good, also at a fault.
        ensures good { (ws : List Span) (most : ℕ) → IsTimeline ws → HoldsGood ws (test_of self.old.filter) self.old.mark (K.state keeper.old) →
            IsAskOf self.old.filter (asks self.old most) ask.now → AreTrueOf ws (test_of self.old.filter) (asks self.old most) ask.now reply.now →
            KeepsGood ws (test_of self.old.filter) (K.state keeper.new) }
    {
        if self.halted {
            return Err(TakeFault::Halted);
        }
        let shape = check_reply(ask, reply)?;
        if let Err(refused) = dispatch(consumer, &shape, reply, self.mark.floor_of()) {
            return Err(TakeFault::Refused { scn: refused.scn });
        }
        self.settle(alloc, &shape, reply, keeper, consumer)
    }

    // Makes the turn of a reply whose callbacks were taken.
    fn settle<K: Keeper, C: Consumer>(
        &mut self,
        alloc: Global,
        shape: &Shape,
        reply: &[u8],
        keeper: &mut K,
        consumer: &mut C,
    ) -> Result<Took, TakeFault>
        requires { HoldsComing self.old.mark shape.now reply.now }
        ensures settles { Settles result self.old self.new shape.now reply.now (K.state keeper.old) (K.state keeper.new)
            (C.calls consumer.old) (C.calls consumer.new) }
        ensures counts { CountsKept (K.state keeper.old) (K.state keeper.new) }
        ensures later { C.refusals consumer.old ≤ C.refusals consumer.new }
    {
        let Ok(turn) = turn_of(alloc, &self.mark, shape, reply, &mut self.room) else {
            return Err(self.go_back(consumer));
        };
        let (mark, wish) = (turn.mark, turn.wish);
        match turn.commit(alloc, keeper, &mut self.room) {
            Ok(text) => Ok(self.follow(mark, wish, &text, shape, consumer)),
            Err(StoreFault::Failed) => Err(self.halt()),
            Err(StoreFault::NoMemory) => Err(self.go_back(consumer)),
        }
    }

    // Stands where a turn leads, and tells of the text that was set.
    fn follow<C: Consumer>(
        &mut self,
        mark: Mark,
        wish: Wish,
        text: &Option<MarkText>,
        shape: &Shape,
        consumer: &mut C,
    ) -> Took
        requires { CanStand mark (wish_of wish) }
        ensures client { self.new ≡ record self.old { mark = mark; wish = wish_of wish } }
        ensures calls { C.calls consumer.new ≡ with_calls (checkpoint_call text.now) (C.calls consumer.old) }
        ensures later { C.refusals consumer.old ≤ C.refusals consumer.new }
        ensures took { result ≡ record { shape = shape.now; committed = is_some text.now } }
    {
        self.mark = mark;
        self.wish = wish;
        Took {
            shape: *shape,
            committed: tell_checkpoint(consumer, text),
        }
    }

    // Asks and takes nothing from now on.
    fn halt(&mut self) -> TakeFault
        ensures client { self.new ≡ record self.old { halted = true } }
        ensures fault { result ≡ TakeFault.StoreFault }
    {
        self.halted = true;
        TakeFault::StoreFault
    }

    // Tells the consumer to go back, since memory ran out.
    fn go_back<C: Consumer>(&self, consumer: &mut C) -> TakeFault
        ensures calls { C.calls consumer.new ≡ with_calls (taken (OnRollback (floor_of self.now.mark)) ∷ []) (C.calls consumer.old) }
        ensures later { C.refusals consumer.old ≤ C.refusals consumer.new }
        ensures fault { result ≡ TakeFault.NoMemory }
    {
        consumer.on_rollback(self.mark.floor_of());
        TakeFault::NoMemory
    }
}
