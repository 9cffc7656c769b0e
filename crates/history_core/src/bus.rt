ghost use Rattle.std.specs.Prelude.{◌≡◌, ◌≤◌, ◌<◌, List, [], length, map, take, true, Some, IfSome, IfOk, OnOk, IsErrOf};
ghost use Rattle.bus_types.specs.Causes.{Rose};
ghost use Rattle.bus_types.specs.Timeline.{IsTimelineFrom};
ghost use Rattle.partition_filter.specs.Selection.{test_of};
ghost use Rattle.bus_stores.specs.Memory.{stop_at};
ghost use Rattle.trace_script.specs.declared.line.Line.{Line};
ghost use Rattle.trace_script.specs.Spelling.{is_in_range};
ghost use Rattle.source_db.specs.Queue.{waiting};
ghost use Rattle.history_core.specs.Script.{start};
ghost use Rattle.history_core.specs.Steps.{Step, begin, place_of, relay_step, consumer_step, commit_step, gen_step, last_generated, feed_step, log_step, apply_step, trim_step, restart_step, stream_step, poll_step, crash_step, stop_step, show_step, sum_step};
ghost use Rattle.history_core.specs.Run.{is_blank, effect, act, line_step};
ghost use Rattle.history_core.specs.Bus.{Parts, state_of, followers, IsSound, Steps, OnWriteFault, Calls};
ghost use Rattle.history_core.specs.Acting.{Acts, Does, Publishes};

use crate::boot::{MemoryBoot, apply_windows, log_windows, new_boot, restart, trim};
use crate::fault::StepFault;
use crate::generate::commit_generated;
use crate::member::Member;
use crate::text;
use bus_io::{Sink, write_all};
use bus_stores::MemoryKeeper;
use bus_types::{Changes, NoMemory, Window, copy_changes};
use partition_filter::Filter;
use relay_core::{Buffer, relay_answer};
use source_db::CommitQueue;
use std::alloc::Global;
use std::marker::Model;
use trace_script::{Line, Name, gap_line, relay_line};

/// The most consumers of a bus.
const MOST_CONSUMERS: usize = 64;

/// The most windows of a script.
const MOST_COMMITS: u64 = 1_000_000;

/// The greatest SCN behind which windows are made: those of one line end at most 300,000 above it.
const LAST_GENERATED: u64 = 9_223_372_036_854_475_807;

/// A source, a relay over any buffer, a bootstrap over a log and a keeper in memory, and consumers that follow the source, each with a
/// client and a keeper of its rows and its mark in memory. Contracts see the source's windows, the relay, and what log,
/// clients and keepers tell; `state_of` is the state of the script whose bus it is, and `IsSound` says that all of it fits
/// together (`docs/DEFINITIONS.md`).
#[derive(Debug, Drop)]
pub struct Bus<B: Buffer + Drop> {
    begun: bool,
    source: CommitQueue,
    relay: B,
    boot: MemoryBoot,
    members: Vec<Member>,
    /// Empty, with room for each consumer's keeper.
    room: Vec<MemoryKeeper>,
    /// The bytes of the last reply, so that the next one need not take its memory anew.
    reply: Vec<u8>,
}

impl<B: Buffer + Drop> Model for Bus<B> {
    ghost use Rattle.std.specs.Prelude.{◌≡◌, ◌≤◌, [], length};
    ghost use Rattle.std.specs.Vec.{vec_capacity};
    ghost use Rattle.history_core.specs.Bus.{Parts};

    ghost Value = { Parts };

    ghost view = { λ b. record { begun = b.begun; source = b.source.windows; relay = B.relay b.relay; boot = b.boot; members = b.members.items } };

    ghost invariant = { λ b. (b.room.items ≡ []) × (length b.members.items ≤ vec_capacity b.room) × (b.source.passed ≡ (B.relay b.relay).tail) };
}

impl<B: Buffer + Drop> Bus<B> {
    /// A bus without a commit and without a consumer, whose relay keeps at most so many bytes of windows in full, from
    /// 1,048,576 to 268,435,456, and at most so many windows, from 1 to 65,536.
    pub fn new(alloc: Global, bytes: u64, windows: u32) -> Result<Bus<B>, NoMemory>
        requires some_bytes { 1048576 ≤ bytes }
        requires few_bytes { bytes ≤ 268435456 }
        requires some_windows { 1 ≤ windows }
        requires few_windows { windows ≤ 65536 }
        ensures state { IfOk result (λ bus. state_of bus ≡ record start { room = record { bytes = bytes; windows = windows } }) }
        ensures sound { IfOk result IsSound }
    {
        Ok(Bus {
            begun: false,
            source: CommitQueue::new(alloc),
            relay: B::new(alloc, bytes, windows)?,
            boot: new_boot(alloc)?,
            members: Vec::new(alloc),
            room: Vec::new(alloc),
            reply: Vec::new(alloc),
        })
    }

    /// Takes a line, and writes what it prints.
    ///
    /// `BadLine` comes exactly where the line is against a rule in this state of the bus, or has a number outside the
    /// ranges of the grammar; bus and output are then as before. `WriteFault` comes only where the output's count rose,
    /// and tells how many bytes of the line's text went out. After it and after want of memory, where nothing was
    /// written, the bus isn't used again.
    pub fn step<W: Sink>(
        &mut self,
        alloc: Global,
        line: &Line,
        out: &mut W,
    ) -> Result<(), StepFault>
        requires { IsSound self.old }
        ensures steps { Steps result (line_step (state_of self.old) line.now) self.old self.new (W.written out.old) (W.written out.new) }
        ensures untouched { IsErrOf result StepFault.BadLine → out.new ≡ out.old }

        // Whoever shows a consumer's rows reads them from its keeper.
        ensures calls { OnOk result (Calls line.now self.old self.new) }

        // A fault of the output comes only where its count rose.
        ensures later { W.faults out.old ≤ W.faults out.new }
        ensures write_fault { OnWriteFault result (Rose (W.faults out.old) (W.faults out.new)) }
    {
        if !line.is_in_range() {
            return Err(StepFault::BadLine);
        }
        let text = self.act(alloc, line)?;
        write_all(out, &text)?;
        Ok(())
    }

    /// Takes a line that is given away, as [`Bus::step`] does one that is lent: the changes of a commit aren't copied.
    pub fn step_owned<W: Sink>(
        &mut self,
        alloc: Global,
        line: Line,
        out: &mut W,
    ) -> Result<(), StepFault>
        requires { IsSound self.old }
        ensures steps { Steps result (line_step (state_of self.old) line) self.old self.new (W.written out.old) (W.written out.new) }
        ensures untouched { IsErrOf result StepFault.BadLine → out.new ≡ out.old }
        ensures calls { OnOk result (Calls line self.old self.new) }
        ensures later { W.faults out.old ≤ W.faults out.new }
        ensures write_fault { OnWriteFault result (Rose (W.faults out.old) (W.faults out.new)) }
    {
        if !line.is_in_range() {
            return Err(StepFault::BadLine);
        }
        let text = self.act_owned(alloc, line)?;
        write_all(out, &text)?;
        Ok(())
    }

    /// The consumers' keepers, in order of declaration. It takes no memory.
    pub fn keepers(self) -> Vec<MemoryKeeper>
        ensures { result.items ≡ map (λ m. m.store) self.members }
    {
        let mut keepers = self.room;
        for member in self.members {
            keepers.push_reserved(member.into_keeper());
        }
        keepers
    }

    // Takes a line whose numbers are in range, and gives the text that it prints.
    fn act(&mut self, alloc: Global, line: &Line) -> Result<Vec<u8>, StepFault>
        requires sound { IsSound self.old }
        requires range { is_in_range line.now ≡ true }
        ensures does { Does result (act (state_of self.old) line.now) self.old self.new }
        ensures calls { OnOk result (Calls line.now self.old self.new) }
    {
        if is_blank(line) {
            return Ok(Vec::new(alloc));
        }
        let done = self.take(alloc, line);
        self.begin(done)
    }

    // Takes a line whose numbers are in range and that is given away.
    fn act_owned(&mut self, alloc: Global, line: Line) -> Result<Vec<u8>, StepFault>
        requires sound { IsSound self.old }
        requires range { is_in_range line ≡ true }
        ensures does { Does result (act (state_of self.old) line) self.old self.new }
        ensures calls { OnOk result (Calls line self.old self.new) }
    {
        match line {
            Line::Commit { scn, changes } => {
                let done = self.commit(alloc, scn, changes);
                self.begin(done)
            }
            line => self.act(alloc, &line),
        }
    }

    // Takes a line that isn't blank, but for that it has come.
    fn take(&mut self, alloc: Global, line: &Line) -> Result<Vec<u8>, StepFault>
        requires sound { IsSound self.old }
        requires range { is_in_range line.now ≡ true }
        ensures acts { Acts result (effect (state_of self.old) line.now) self.old self.new }
        ensures calls { OnOk result (Calls line.now self.old self.new) }
    {
        match line {
            Line::Blank => Ok(Vec::new(alloc)),
            Line::Relay { bytes, windows } => self.set_room(alloc, *bytes, *windows),
            Line::Consumer { name, filter } => self.declare(alloc, *name, filter),
            Line::Commit { scn, changes } => self.commit_copy(alloc, *scn, changes),
            Line::Gen { seed, count } => self.generate(alloc, *seed, *count),
            Line::Feed(count) => self.feed(alloc, *count),
            Line::Log(count) => self.log(alloc, *count),
            Line::Apply(count) => self.apply(alloc, *count),
            Line::Trim(scn) => self.trim(alloc, *scn),
            Line::RestartBoot => self.restart_boot(alloc),
            Line::Stream { scn, filter, max } => self.stream(alloc, *scn, filter, *max),
            Line::Poll { name, max } => self.poll(alloc, name, *max),
            Line::Crash(name) => self.crash(alloc, name),
            Line::Stop { name, after } => self.stop(alloc, name, *after),
            Line::Show(name) => self.show(alloc, name),
            Line::Sum(name) => self.sum(alloc, name),
        }
    }

    // Keeps, where a line was taken, that a line that isn't blank has come.
    fn begin(&mut self, done: Result<Vec<u8>, StepFault>) -> Result<Vec<u8>, StepFault>
        ensures does { (first : Parts) (defined : Step) → Acts done defined first self.old → Does result (begin defined) first self.new }
        ensures calls { (line : Line) (first : Parts) → OnOk done (Calls line first self.old) → OnOk result (Calls line first self.new) }
    {
        match done {
            Ok(text) => {
                self.begun = true;
                Ok(text)
            }
            Err(fault) => Err(fault),
        }
    }

    // The room of the relay.
    #[tactic(auto, unfolding(crate::specs::Steps::relay_step))]
    fn set_room(&mut self, alloc: Global, bytes: u64, windows: u32) -> Result<Vec<u8>, StepFault>
        requires sound { IsSound self.old }
        requires least_bytes { 1048576 ≤ bytes }
        requires most_bytes { bytes ≤ 268435456 }
        requires least_windows { 1 ≤ windows }
        requires most_windows { windows ≤ 65536 }
        ensures { Acts result (relay_step (state_of self.old) bytes windows) self.old self.new }
    {
        if self.begun {
            return Err(StepFault::BadLine);
        }
        self.relay = B::new(alloc, bytes, windows)?;
        Ok(Vec::new(alloc))
    }

    // A new consumer.
    #[tactic(auto, unfolding(crate::specs::Steps::consumer_step))]
    fn declare(&mut self, alloc: Global, name: Name, filter: &Filter) -> Result<Vec<u8>, StepFault>
        requires { IsSound self.old }
        ensures { Acts result (consumer_step (state_of self.old) name filter.now) self.old self.new }
    {
        if place(&self.members, name.bytes()).is_some() {
            return Err(StepFault::BadLine);
        }
        if self.members.len() >= MOST_CONSUMERS {
            return Err(StepFault::BadLine);
        }
        self.room.reserve(self.members.len() + 1)?;
        let filter = filter.copy(alloc)?;
        self.members.push(Member::new(alloc, name, filter)?)?;
        Ok(Vec::new(alloc))
    }

    // The source commits a window.
    #[tactic(auto, unfolding(crate::specs::Steps::commit_step))]
    fn commit(&mut self, alloc: Global, scn: u64, changes: Changes) -> Result<Vec<u8>, StepFault>
        requires { IsSound self.old }
        ensures { Acts result (commit_step (state_of self.old) scn changes) self.old self.new }
    {
        let Ok(window) = Window::new(scn, self.source.last(), changes.into_vec()) else {
            return Err(StepFault::BadLine);
        };
        let _within = window.size();
        if self.source.count() >= MOST_COMMITS {
            return Err(StepFault::BadLine);
        }
        self.source.append(alloc, window)?;
        Ok(Vec::new(alloc))
    }

    // The source commits a window with a copy of these changes.
    fn commit_copy(
        &mut self,
        alloc: Global,
        scn: u64,
        changes: &Changes,
    ) -> Result<Vec<u8>, StepFault>
        requires { IsSound self.old }
        ensures { Acts result (commit_step (state_of self.old) scn changes.now) self.old self.new }
    {
        let copy = Changes::new(copy_changes(alloc, changes.items())?);
        self.commit(alloc, scn, copy)
    }

    // The source commits windows that are made from a number.
    #[tactic(auto, unfolding(crate::specs::Steps::gen_step))]
    fn generate(&mut self, alloc: Global, seed: u32, count: u32) -> Result<Vec<u8>, StepFault>
        requires sound { IsSound self.old }
        requires few { count ≤ 100000 }
        ensures { Acts result (gen_step (state_of self.old) seed count) self.old self.new }
    {
        if self.source.last() > LAST_GENERATED {
            return Err(StepFault::BadLine);
        }
        if self.source.count() + u64::from(count) > MOST_COMMITS {
            return Err(StepFault::BadLine);
        }
        commit_generated(alloc, &mut self.source, seed, count)?;
        Ok(Vec::new(alloc))
    }

    // The relay publishes the next commits.
    fn feed(&mut self, alloc: Global, count: u64) -> Result<Vec<u8>, StepFault>
        requires { IsSound self.old }
        ensures { Acts result (feed_step (state_of self.old) count) self.old self.new }
    {
        publish(alloc, &mut self.relay, &mut self.source, count)?;
        Ok(relay_line(alloc, self.relay.floor(), self.relay.tail())?.into_bytes())
    }

    // The bootstrap logs the next windows that the relay keeps.
    #[tactic(auto, unfolding(crate::specs::Steps::log_step))]
    fn log(&mut self, alloc: Global, count: u64) -> Result<Vec<u8>, StepFault>
        requires { IsSound self.old }
        ensures { Acts result (log_step (state_of self.old) count) self.old self.new }
    {
        if self.boot.high() < self.relay.floor() {
            return Ok(gap_line(alloc, self.relay.floor())?.into_bytes());
        }
        log_windows(alloc, &self.relay, &mut self.boot, count)?;
        Ok(text::boot(alloc, &self.boot)?)
    }

    // The bootstrap applies the next logged windows.
    #[tactic(auto, unfolding(crate::specs::Steps::apply_step))]
    fn apply(&mut self, alloc: Global, count: u64) -> Result<Vec<u8>, StepFault>
        requires { IsSound self.old }
        ensures { Acts result (apply_step (state_of self.old) count) self.old self.new }
    {
        apply_windows(alloc, &mut self.boot, count)?;
        Ok(text::boot(alloc, &self.boot)?)
    }

    // The bootstrap's log may drop windows.
    #[tactic(auto, unfolding(crate::specs::Steps::trim_step))]
    fn trim(&mut self, alloc: Global, scn: u64) -> Result<Vec<u8>, StepFault>
        requires { IsSound self.old }
        ensures { Acts result (trim_step (state_of self.old) scn) self.old self.new }
    {
        trim(alloc, &mut self.boot, scn)?;
        Ok(text::boot(alloc, &self.boot)?)
    }

    // The bootstrap is opened again.
    #[tactic(auto, unfolding(crate::specs::Steps::restart_step))]
    fn restart_boot(&mut self, alloc: Global) -> Result<Vec<u8>, StepFault>
        requires { IsSound self.old }
        ensures { Acts result (restart_step (state_of self.old)) self.old self.new }
    {
        restart(alloc, &mut self.boot)?;
        Ok(text::boot(alloc, &self.boot)?)
    }

    // What the relay answers to who isn't a consumer.
    #[tactic(auto, unfolding(crate::specs::Steps::stream_step))]
    fn stream(
        &self,
        alloc: Global,
        scn: u64,
        filter: &Filter,
        max: u32,
    ) -> Result<Vec<u8>, StepFault>
        requires { IsSound self.now }
        ensures { Acts result (stream_step (state_of self.now) scn (test_of filter.now) max) self.now self.now }
    {
        let mut reply = Vec::new(alloc);
        let served = relay_answer(alloc, &self.relay, scn, filter, max, &mut reply)?;
        Ok(text::stream(alloc, served)?.into_bytes())
    }

    // A consumer asks, and takes the reply.
    #[tactic(auto, unfolding(crate::specs::Steps::poll_step))]
    fn poll(&mut self, alloc: Global, name: &Name, max: u32) -> Result<Vec<u8>, StepFault>
        requires { IsSound self.old }
        ensures { Acts result (poll_step (state_of self.old) name.now max) self.old self.new }
    {
        let Some(i) = place(&self.members, name.bytes()) else {
            return Err(StepFault::BadLine);
        };
        let member = &mut self.members[i];
        Ok(member.poll(alloc, &self.relay, &mut self.boot, max, &mut self.reply)?)
    }

    // A consumer's client is opened again.
    #[tactic(auto, unfolding(crate::specs::Steps::crash_step))]
    fn crash(&mut self, alloc: Global, name: &Name) -> Result<Vec<u8>, StepFault>
        requires { IsSound self.old }
        ensures { Acts result (crash_step (state_of self.old) name.now) self.old self.new }
    {
        let Some(i) = place(&self.members, name.bytes()) else {
            return Err(StepFault::BadLine);
        };
        let member = &mut self.members[i];
        member.crash(alloc)?;
        Ok(Vec::new(alloc))
    }

    // A consumer's next commit is to fail.
    #[tactic(auto, unfolding(crate::specs::Steps::stop_step))]
    fn stop(&mut self, alloc: Global, name: &Name, after: bool) -> Result<Vec<u8>, StepFault>
        requires { IsSound self.old }
        ensures { Acts result (stop_step (state_of self.old) name.now (stop_at after)) self.old self.new }
    {
        let Some(i) = place(&self.members, name.bytes()) else {
            return Err(StepFault::BadLine);
        };
        let member = &mut self.members[i];
        member.stop(after);
        Ok(Vec::new(alloc))
    }

    // What a consumer has.
    #[tactic(auto, unfolding(crate::specs::Steps::show_step))]
    fn show(&mut self, alloc: Global, name: &Name) -> Result<Vec<u8>, StepFault>
        requires { IsSound self.old }
        ensures acts { Acts result (show_step (state_of self.old) name.now) self.old self.new }
        ensures calls { OnOk result (Calls (Line.Show name.now) self.old self.new) }
    {
        let Some(i) = place(&self.members, name.bytes()) else {
            return Err(StepFault::BadLine);
        };
        let member = &mut self.members[i];
        Ok(member.show(alloc)?)
    }

    // The summary of what a consumer has.
    #[tactic(auto, unfolding(crate::specs::Steps::sum_step))]
    fn sum(&mut self, alloc: Global, name: &Name) -> Result<Vec<u8>, StepFault>
        requires { IsSound self.old }
        ensures acts { Acts result (sum_step (state_of self.old) name.now) self.old self.new }
        ensures calls { OnOk result (Calls (Line.Sum name.now) self.old self.new) }
    {
        let Some(i) = place(&self.members, name.bytes()) else {
            return Err(StepFault::BadLine);
        };
        let member = &mut self.members[i];
        Ok(member.sum(alloc)?)
    }
}

fn is_blank(line: &Line) -> bool
    ensures { result ≡ is_blank line.now }
{
    matches!(line, Line::Blank)
}

// Where the consumer of this name stands.
fn place(members: &[Member], name: &[u8]) -> Option<usize>
    ensures place { result ≡ place_of name.now (followers members.now) }
    ensures within { IfSome result (λ i. i < length members.now) }
{
    for (i, member) in members.iter().enumerate() {
        if member.name.bytes() == name {
            return Some(i);
        }
    }
    None
}

// The relay publishes the next so many windows of a source, or those there are, which follow its newest one: the source lets
// each go.
fn publish<B: Buffer>(
    alloc: Global,
    relay: &mut B,
    source: &mut CommitQueue,
    count: u64,
) -> Result<(), NoMemory>
    requires at { source.old.passed ≡ (B.relay relay.old).tail }
    requires follow { IsTimelineFrom (B.relay relay.old).tail (take count (waiting source.old)) }
    ensures publishes { OnOk result (Publishes (take count (waiting source.old)) (B.relay relay.old) (B.relay relay.new)) }
    ensures commits { source.new.windows ≡ source.old.windows }
    ensures at { source.new.passed ≡ (B.relay relay.new).tail }
{
    for _i in 0..count {
        let Some(window) = source.next() else {
            return Ok(());
        };
        relay.publish(alloc, window)?;
        source.pass();
    }
    Ok(())
}
