ghost use Rattle.std.specs.Prelude.{◌≡◌, ◌≤◌, false, [], List, Some, IfOk, OnOk};
ghost use Rattle.bus_types.specs.Causes.{WasCounted};
ghost use Rattle.bus_types.specs.Window.{Span};
ghost use Rattle.checkpoint.specs.declared.mark.Mark.{Mark};
ghost use Rattle.bus_stores.specs.Memory.{last_mark, stop_at};
ghost use Rattle.client_switch.specs.Moves.Wish.{NoWish};
ghost use Rattle.client_switch.specs.Client.{IsStored};
ghost use Rattle.history_core.specs.Steps.{new_follower};
ghost use Rattle.history_core.specs.Bus.{follower, IsMember};
ghost use Rattle.history_core.specs.Acting.{WasRead, IsReopened, Becomes, Shows, Sums};

use crate::sum;
use bus_stores::{MemoryKeeper, StoreFault, all_rows};
use bus_types::{NoMemory, Rows};
use checkpoint::Mark;
use client_switch::{Client, ClientOpen};
use consumer_lines::{mode_shown, rows_shown};
use partition_filter::Filter;
use std::alloc::Global;
use std::marker::Model;
use trace_script::Name;

/// A consumer of a bus: its client, and the keeper of its rows and its mark. Contracts see them with its name, and with how
/// often its rows were shown.
#[derive(Debug, Drop)]
pub(crate) struct Member {
    pub name: Name,
    pub client: Client,
    pub keeper: MemoryKeeper,
    pub shows: u64,
}

impl Model for Member {
    ghost use Rattle.history_core.specs.Bus.{MemberState};

    ghost Value = { MemberState };

    ghost view = { λ m. record { name = m.name; client = m.client; store = m.keeper; shows = m.shows } };
}

// Opens a client over what a keeper holds that fails at no call.
fn open(alloc: Global, keeper: &mut MemoryKeeper, filter: Filter) -> Result<Client, NoMemory>
    requires sound { keeper.old.fails ≡ [] }
    requires stored { (mark : Mark) × IsStored (last_mark keeper.old.marks) mark }
    ensures filter { IfOk result (λ client. client.filter ≡ filter) }
    ensures wish { IfOk result (λ client. client.wish ≡ NoWish) }
    ensures runs { IfOk result (λ client. client.halted ≡ false) }
    ensures mark { IfOk result (λ client. IsStored (last_mark keeper.old.marks) client.mark) }
    ensures read { WasRead keeper.old keeper.new }
{
    match Client::open(alloc, keeper, filter) {
        Ok(client) => Ok(client),
        Err(ClientOpen::NoMemory) => Err(NoMemory),
        Err(ClientOpen::BadMark | ClientOpen::StoreFault) => unreachable!(),
    }
}

// All rows of a keeper that fails at no call.
fn rows_of(alloc: Global, keeper: &mut MemoryKeeper) -> Result<Rows, NoMemory>
    requires { keeper.old.fails ≡ [] }
    ensures rows { IfOk result (λ rows. rows ≡ keeper.old.rows) }
    ensures read { WasRead keeper.old keeper.new }
    ensures called { OnOk result (WasCounted keeper.old.calls keeper.new.calls) }
{
    match all_rows(alloc, keeper) {
        Ok(rows) => Ok(rows),
        Err(StoreFault::NoMemory) => Err(NoMemory),
        Err(StoreFault::Failed) => unreachable!(),
    }
}

impl Member {
    /// A consumer that follows the rows of a filter from before the first window.
    pub fn new(alloc: Global, name: Name, filter: Filter) -> Result<Member, NoMemory>
        ensures { IfOk result (λ member. (ws : List Span) → Becomes ws (new_follower name filter) member) }
    {
        let mut keeper = MemoryKeeper::new(alloc, &[])?;
        let client = open(alloc, &mut keeper, filter)?;
        Ok(Member {
            name,
            client,
            keeper,
            shows: 0,
        })
    }

    /// Opens its client again from its keeper. After want of memory it isn't used again.
    pub fn crash(&mut self, alloc: Global) -> Result<(), NoMemory>
        requires { (ws : List Span) × IsMember ws self.old }
        ensures { OnOk result ((ws : List Span) → IsMember ws self.old → Becomes ws (record (follower self.old) { wish = NoWish }) self.new) }
    {
        self.reopen(alloc)
    }

    /// Opens its client again over what its keeper holds, also where the client has met a stop. After want of memory it
    /// isn't used again.
    pub fn reopen(&mut self, alloc: Global) -> Result<(), NoMemory>
        requires sound { self.old.store.fails ≡ [] }
        requires stored { (mark : Mark) × IsStored (last_mark self.old.store.marks) mark }
        ensures { OnOk result (IsReopened self.old self.new) }
    {
        let filter = self.client.filter().copy(alloc)?;
        self.client = open(alloc, &mut self.keeper, filter)?;
        Ok(())
    }

    /// Lets its next commit fail, after it counts or before.
    pub fn stop(&mut self, after: bool)
        ensures { (ws : List Span) → IsMember ws self.old → Becomes ws (record (follower self.old) { armed = Some (stop_at after) }) self.new }
    {
        self.keeper.arm(after);
    }

    /// What is shown of it: online, its SCN and its rows; else what it is at. After want of memory it isn't used again.
    pub fn show(&mut self, alloc: Global) -> Result<Vec<u8>, NoMemory>
        requires { (ws : List Span) × IsMember ws self.old }
        ensures { IfOk result (λ text. (ws : List Span) → IsMember ws self.old → Shows ws self.old self.new text.items) }
    {
        match *self.client.mark() {
            Mark::Online { scn } => self.show_rows(alloc, scn),
            Mark::Delta { .. } => mode_shown(alloc, self.name.bytes(), b" delta\n"),
            Mark::Snapshot { .. } => mode_shown(alloc, self.name.bytes(), b" snapshot\n"),
            Mark::Scanned { .. } => mode_shown(alloc, self.name.bytes(), b" scanned\n"),
            Mark::Catchup { .. } => mode_shown(alloc, self.name.bytes(), b" catchup\n"),
        }
    }

    /// The summary of it: online, its SCN and that of its rows; else what it is at. After want of memory it isn't used
    /// again.
    pub fn sum(&mut self, alloc: Global) -> Result<Vec<u8>, NoMemory>
        requires { (ws : List Span) × IsMember ws self.old }
        ensures { IfOk result (λ text. (ws : List Span) → IsMember ws self.old → Sums ws self.old self.new text.items) }
    {
        match *self.client.mark() {
            Mark::Online { scn } => self.sum_rows(alloc, scn),
            Mark::Delta { .. } => sum::mode(alloc, self.name.bytes(), b" delta\n"),
            Mark::Snapshot { .. } => sum::mode(alloc, self.name.bytes(), b" snapshot\n"),
            Mark::Scanned { .. } => sum::mode(alloc, self.name.bytes(), b" scanned\n"),
            Mark::Catchup { .. } => sum::mode(alloc, self.name.bytes(), b" catchup\n"),
        }
    }

    // The SCN and the summary of the rows of who is online.
    fn sum_rows(&mut self, alloc: Global, scn: u64) -> Result<Vec<u8>, NoMemory>
        requires online { self.old.client.mark ≡ Mark.Online scn }
        requires member { (ws : List Span) × IsMember ws self.old }
        ensures { IfOk result (λ text. (ws : List Span) → IsMember ws self.old → Sums ws self.old self.new text.items) }
    {
        let kept = rows_of(alloc, &mut self.keeper)?;
        self.shows = self.shows.saturating_add(1);
        sum::rows(alloc, self.name.bytes(), scn, kept.items())
    }

    // The SCN and the rows of who is online.
    fn show_rows(&mut self, alloc: Global, scn: u64) -> Result<Vec<u8>, NoMemory>
        requires online { self.old.client.mark ≡ Mark.Online scn }
        requires member { (ws : List Span) × IsMember ws self.old }
        ensures { IfOk result (λ text. (ws : List Span) → IsMember ws self.old → Shows ws self.old self.new text.items) }
    {
        let rows = rows_of(alloc, &mut self.keeper)?;
        self.shows = self.shows.saturating_add(1);
        rows_shown(alloc, self.name.bytes(), scn, rows.items())
    }

    /// Its keeper.
    pub fn into_keeper(self) -> MemoryKeeper
        ensures { result ≡ self.store }
    {
        self.keeper
    }
}
