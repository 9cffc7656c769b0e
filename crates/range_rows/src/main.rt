//! The program `range_rows`: three windows are published to a shared ring that keeps two, and passes open what stands behind
//! SCNs. It prints what each opens, the parts that a filter keeps, and the numbers that passes have seen; the gate compares
//! the lines. It stands on `range_ring`; nothing stands on it.
#![tactic(auto)]

mod reading;
mod windows;

ghost use Rattle.std.specs.Prelude.{◌≡◌};

use bus_types::Untold;
use partition_filter::Filter;
use range_ring::{Feeder, Pass, Ring, make_ring};
use reading::{Ask, open_and_write, write_seen};
use std::alloc::{AllocError, Global};
use std::io;
use std::sync::Wait;
use windows::publish;

// What a pass asks for once all is published, one after the other.
const ASKS: [Ask; 11] = [
    Ask {
        scn: 0,
        max: 1000,
        odd: false,
    },
    Ask {
        scn: 9,
        max: 1000,
        odd: false,
    },
    Ask {
        scn: 10,
        max: 1000,
        odd: false,
    },
    Ask {
        scn: 10,
        max: 1000,
        odd: true,
    },
    Ask {
        scn: 10,
        max: 40,
        odd: false,
    },
    Ask {
        scn: 10,
        max: 16,
        odd: true,
    },
    Ask {
        scn: 10,
        max: 17,
        odd: true,
    },
    Ask {
        scn: 10,
        max: 41,
        odd: false,
    },
    Ask {
        scn: 20,
        max: 64,
        odd: true,
    },
    Ask {
        scn: 20,
        max: 65,
        odd: true,
    },
    Ask {
        scn: 30,
        max: 1000,
        odd: false,
    },
];

fn main(rt: HostRuntime) -> io::Result<()> {
    let Ok((ring, mut feeder, mut passes)) = make_ring(rt.alloc(), 1_048_576, 2, 2) else {
        return Err(io::ErrorKind::OutOfMemory.into());
    };
    let (Some(mut pass), Some(mut other)) = (passes.pop(), passes.pop()) else {
        return Err(io::ErrorKind::OutOfMemory.into());
    };
    let mut text = String::new(rt.alloc());
    first_pass(&rt, rt.alloc(), &mut text, &ring, &mut feeder, &mut pass)?;
    second_pass(&rt, rt.alloc(), &mut text, &ring, &mut feeder, &mut other)?;
    print!(rt; "{text}")
}

// A pass asks before anything is published, and then once more for each row of the list.
fn first_pass<R: Wait>(
    rt: &R,
    alloc: Global,
    text: &mut String,
    ring: &Ring<Untold>,
    feeder: &mut Feeder<Untold>,
    pass: &mut Pass<Untold>,
) -> io::Result<()>
    requires feeder { feeder.old.home ≡ ring.now }
    requires pass { pass.old.home ≡ ring.now }
    ensures { feeder.new.home ≡ ring.now }
{
    let (Ok(all), Ok(odd)) = (Filter::read(alloc, "all"), Filter::read(alloc, "0%2:1")) else {
        return Err(io::ErrorKind::InvalidInput.into());
    };
    open_and_write(rt, text, ring, pass, &ASKS[0], &all)?;
    publish(rt, alloc, ring, feeder)?;
    for row in &ASKS {
        ask_row(rt, text, ring, pass, row, &all, &odd)?;
    }
    write_seen(text, pass)?;
    Ok(())
}

// A pass asks for a row of the list.
fn ask_row<R: Wait>(
    rt: &R,
    text: &mut String,
    ring: &Ring<Untold>,
    pass: &mut Pass<Untold>,
    row: &Ask,
    all: &Filter,
    odd: &Filter,
) -> Result<(), AllocError>
    requires { pass.old.home ≡ ring.now }
    ensures { pass.new.home ≡ ring.now }
{
    if row.odd {
        open_and_write(rt, text, ring, pass, row, odd)
    } else {
        open_and_write(rt, text, ring, pass, row, all)
    }
}

// A pass meets a note, and then asks.
fn second_pass<R: Wait>(
    rt: &R,
    alloc: Global,
    text: &mut String,
    ring: &Ring<Untold>,
    feeder: &mut Feeder<Untold>,
    pass: &mut Pass<Untold>,
) -> io::Result<()>
    requires feeder { feeder.old.home ≡ ring.now }
    requires pass { pass.old.home ≡ ring.now }
{
    let Ok(odd) = Filter::read(alloc, "0%2:1") else {
        return Err(io::ErrorKind::InvalidInput.into());
    };
    write_seen(text, pass)?;
    pass.meet(ring, feeder.note(ring));
    write_seen(text, pass)?;
    let last = Ask {
        scn: 15,
        max: 1000,
        odd: true,
    };
    open_and_write(rt, text, ring, pass, &last, &odd)?;
    Ok(())
}
