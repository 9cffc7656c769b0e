ghost use Rattle.std.specs.Prelude.{◌≡◌, ◌+◌, ◌<◌, ◌≤◌, [], Some, length, IfOk, OnOk, All};
ghost use Rattle.bus_link.specs.Links.{IsUnused};
ghost use Rattle.bus_link.specs.Memory.{IsNewWire, IsNewDoor};

use crate::fail::LinkFail;
use crate::memory_door::MemoryDoor;
use bus_io::MemoryConn;
use bus_types::NoMemory;
use std::alloc::Global;
use std::marker::Model;
use std::mem;

/// New connections, split in two.
#[derive(Drop)]
struct Parts {
    mine: Vec<MemoryConn>,
    others: Vec<MemoryConn>,
}

impl Model for Parts {
    ghost use Rattle.std.specs.Prelude.{All};
    ghost use Rattle.bus_link.specs.Memory.{Dealt, IsNewWire};

    ghost Value = { Dealt };

    ghost view = { λ s. record { mine = s.mine.items; others = s.others.items } };

    ghost invariant = { λ s. (All IsNewWire s.mine.items) × (All IsNewWire s.others.items) };
}

impl Parts {
    fn new(alloc: Global) -> Parts {
        Parts {
            mine: Vec::new(alloc),
            others: Vec::new(alloc),
        }
    }

    #[tactic(auto, using(crate::proofs::News::more))]
    fn put(&mut self, conn: MemoryConn, is_mine: bool) -> Result<(), NoMemory>
        requires { IsNewWire conn }
    {
        if is_mine {
            self.mine.push(conn)?;
            return Ok(());
        }
        self.others.push(conn)?;
        Ok(())
    }

    fn into_parts(self) -> (Vec<MemoryConn>, Vec<MemoryConn>)
        ensures mine { All IsNewWire result.0.items }
        ensures others { All IsNewWire result.1.items }
    {
        let Parts { mine, others } = self;
        (mine, others)
    }
}

// Those of some connections that stand at the places 0, `every`, 2 · `every` and so on, and the others.
fn split(
    alloc: Global,
    conns: Vec<MemoryConn>,
    every: usize,
) -> Result<(Vec<MemoryConn>, Vec<MemoryConn>), NoMemory>
    requires new { All IsNewWire conns.items }
    requires some { 0 < every }
    ensures mine { IfOk result (λ parts. All IsNewWire parts.0.items) }
    ensures others { IfOk result (λ parts. All IsNewWire parts.1.items) }
{
    let mut parts = Parts::new(alloc);
    for (place, conn) in conns.into_iter().enumerate() {
        parts.put(conn, place % every == 0)?;
    }
    Ok(parts.into_parts())
}

/// Doors that were made, and the connections that none of them has.
#[derive(Drop)]
struct Opening {
    made: Vec<MemoryDoor>,
    rest: Vec<MemoryConn>,
}

impl Model for Opening {
    ghost use Rattle.std.specs.Prelude.{All};
    ghost use Rattle.bus_link.specs.Memory.{Opened, IsNewWire, IsNewDoor};

    ghost Value = { Opened };

    ghost view = { λ o. record { made = o.made.items } };

    ghost invariant = { λ o. (All IsNewDoor o.made.items) × (All IsNewWire o.rest.items) };
}

impl Opening {
    fn new(alloc: Global, rest: Vec<MemoryConn>) -> Opening
        requires { All IsNewWire rest.items }
        ensures { result.made ≡ [] }
    {
        Opening {
            made: Vec::new(alloc),
            rest,
        }
    }

    // Makes the next door of so many.
    #[tactic(auto, using(crate::proofs::News::more))]
    fn open_next(
        &mut self,
        alloc: Global,
        number: u32,
        doors: u32,
        fails: &[LinkFail],
    ) -> Result<(), NoMemory>
        requires { number < doors }
        ensures { OnOk result (length self.new.made ≡ length self.old.made + 1) }
    {
        let rest = mem::replace(&mut self.rest, Vec::new(alloc));
        let (mine, others) = split(alloc, rest, (doors - number) as usize)?;
        self.rest = others;
        let door = MemoryDoor::new(alloc, number, doors, mine, fails)?;
        self.made.push(door)?;
        Ok(())
    }

    fn into_made(self) -> Vec<MemoryDoor>
        ensures made { result.items ≡ self.made }
        ensures unused { All IsNewDoor result.items }
    {
        let Opening { made, rest: _ } = self;
        made
    }
}

/// So many doors for these connections: of n doors, door i has the connections i, i + n and so on.
pub(crate) fn open_doors(
    alloc: Global,
    conns: Vec<MemoryConn>,
    doors: u32,
    fails: &[LinkFail],
) -> Result<Vec<MemoryDoor>, NoMemory>
    requires { All IsNewWire conns.items }
    ensures count { IfOk result (λ made. length made.items ≡ doors) }
    ensures unused { IfOk result (λ made. All IsNewDoor made.items) }
{
    let mut opening = Opening::new(alloc, conns);
    for number in 0..doors {
        opening.open_next(alloc, number, doors, fails)?;
    }
    Ok(opening.into_made())
}
