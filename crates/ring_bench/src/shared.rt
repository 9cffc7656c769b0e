ghost use Rattle.std.specs.Prelude.{◌≡◌, ◌+◌, IfSome, OnSome, OnOk};

use crate::Load;
use crate::reading::{Reading, both, nanoseconds, sum_of};
use crate::windows::window_of;
use bus_types::{Everything, Untold};
use range_ring::{Feeder, Opened, Pass, Range, Ring, make_ring};
use ring_cells::Entry;
use std::alloc::Global;
use std::sync::Wait;
use std::thread::Threads;
use std::time::{Clock, Instant};
use std::{io, thread};

// The most bytes of what a reader opens at once.
const MOST_BYTES: u32 = 4_194_304;

/// The most bytes of a ring.
pub(crate) const MOST_RING_BYTES: u64 = 67_108_864;

/// The most windows of a ring.
pub(crate) const MOST_RING_WINDOWS: u32 = 65_536;

// The sum of the bytes of a range's windows.
fn sum_of_range(range: &Range<'_, Untold, Everything>) -> u64 {
    let mut sum: u64 = 0;
    for i in 0..range.count() {
        sum = sum.wrapping_add(sum_of(range.window(i)));
    }
    sum
}

// Publishes as many windows as the ring has room for, so that the readers have what to read from the start.
fn fill<R: Wait>(
    rt: &R,
    alloc: Global,
    ring: &Ring<Untold>,
    feeder: &mut Feeder<Untold>,
    load: Load,
) -> io::Result<()>
    requires home { feeder.old.home ≡ ring.now }
    requires first { feeder.old.published ≡ 0 }
    ensures home { feeder.new.home ≡ ring.now }
    ensures published { OnOk result (feeder.new.published ≡ load.first) }
{
    for prev in 0..load.first {
        let Some(()) = publish(rt, alloc, ring, feeder, prev, load.payload) else {
            return Err(io::ErrorKind::OutOfMemory.into());
        };
    }
    Ok(())
}

// Publishes the windows behind the first ones, up to so many.
fn feed<R: Wait>(
    rt: &R,
    alloc: Global,
    ring: &Ring<Untold>,
    feeder: &mut Feeder<Untold>,
    load: Load,
) -> Option<()>
    requires home { feeder.old.home ≡ ring.now }
    requires first { feeder.old.published ≡ load.first }
{
    for prev in load.first..load.windows {
        publish(rt, alloc, ring, feeder, prev, load.payload)?;
    }
    Some(())
}

// Publishes the window behind an SCN, which is the number of those that were published.
fn publish<R: Wait>(
    rt: &R,
    alloc: Global,
    ring: &Ring<Untold>,
    feeder: &mut Feeder<Untold>,
    prev: u64,
    payload: u64,
) -> Option<()>
    requires home { feeder.old.home ≡ ring.now }
    requires place { feeder.old.published ≡ prev }
    ensures home { feeder.new.home ≡ ring.now }
    ensures published { OnSome result (feeder.new.published ≡ feeder.old.published + 1) }
{
    let entry = entry(alloc, prev, payload)?;
    feeder.publish(rt, ring, entry);
    Some(())
}

// The entry of the window behind an SCN, which is the number of those before it.
fn entry(alloc: Global, prev: u64, payload: u64) -> Option<Entry<Untold>>
    ensures { IfSome result (λ entry. entry.position ≡ prev) }
{
    let window = window_of(alloc, prev.checked_add(1)?, payload)?;
    Entry::new(alloc, &window, prev).ok()
}

// Opens so often what stands behind an SCN, reads every byte of it, and goes on behind it. Where that isn't kept
// any more, it goes on above the floor.
fn read<R: Wait + Clock>(
    rt: &R,
    ring: &Ring<Untold>,
    pass: &mut Pass<Untold>,
    load: Load,
) -> io::Result<Reading>
    requires { pass.old.home ≡ ring.now }
{
    let start = Instant::now(rt)?;
    let mut read = Reading::new();
    let mut scn = load.from;
    for _ in 0..load.asks {
        read.asks = read.asks.wrapping_add(1);
        scn = match pass.open(rt, ring, scn, &Everything, MOST_BYTES) {
            Opened::Range(range) => {
                let count = range.count() as u64;
                read.add(count, sum_of_range(&range));
                scn.saturating_add(count)
            }
            Opened::NotFound { floor } => load.above(floor),
            Opened::Empty { .. } | Opened::TooSmall { .. } => load.from,
        };
    }
    read.nanoseconds = nanoseconds(start.elapsed(rt)?);
    Ok(read)
}

// Two readers at once.
fn read_two<R: Threads + Wait + Clock + Sync>(
    rt: &R,
    ring: &Ring<Untold>,
    one: &mut Pass<Untold>,
    other: &mut Pass<Untold>,
    load: Load,
) -> io::Result<Reading>
    requires one { one.old.home ≡ ring.now }
    requires other { other.old.home ≡ ring.now }
{
    let later = load.later(1);
    let (left, right) = thread::join(
        rt,
        || read(rt, ring, one, load),
        || read(rt, ring, other, later),
    );
    both(left, right)
}

// Four readers at once.
fn read_four<R: Threads + Wait + Clock + Sync>(
    rt: &R,
    ring: &Ring<Untold>,
    one: &mut Pass<Untold>,
    two: &mut Pass<Untold>,
    three: &mut Pass<Untold>,
    four: &mut Pass<Untold>,
    load: Load,
) -> io::Result<Reading>
    requires one { one.old.home ≡ ring.now }
    requires two { two.old.home ≡ ring.now }
    requires three { three.old.home ≡ ring.now }
    requires four { four.old.home ≡ ring.now }
{
    let later = load.later(2);
    let (left, right) = thread::join(
        rt,
        move ||
            requires one { one.now.home ≡ ring.now }
            requires two { two.now.home ≡ ring.now }
        { read_two(rt, ring, one, two, load) },
        move ||
            requires three { three.now.home ≡ ring.now }
            requires four { four.now.home ≡ ring.now }
        { read_two(rt, ring, three, four, later) },
    );
    both(left, right)
}

// One reader beside the feeder.
fn race_one<R: Threads + Wait + Clock + Sync>(
    rt: &R,
    alloc: Global,
    load: Load,
) -> io::Result<Reading> {
    let Ok((ring, mut feeder, mut passes)) = make_ring::<Untold>(
        alloc,
        MOST_RING_BYTES,
        MOST_RING_WINDOWS,
        1,
    ) else {
        return Err(io::ErrorKind::OutOfMemory.into());
    };
    let Some(mut one) = passes.pop() else {
        return Err(io::ErrorKind::OutOfMemory.into());
    };
    fill(rt, alloc, &ring, &mut feeder, load)?;
    let (fed, read) = thread::join(
        rt,
        || feed(rt, alloc, &ring, &mut feeder, load),
        || read(rt, &ring, &mut one, load),
    );
    done(fed, read)
}

// Two readers beside the feeder.
fn race_two<R: Threads + Wait + Clock + Sync>(
    rt: &R,
    alloc: Global,
    load: Load,
) -> io::Result<Reading> {
    let Ok((ring, mut feeder, mut passes)) = make_ring::<Untold>(
        alloc,
        MOST_RING_BYTES,
        MOST_RING_WINDOWS,
        2,
    ) else {
        return Err(io::ErrorKind::OutOfMemory.into());
    };
    let Some(mut one) = passes.pop() else {
        return Err(io::ErrorKind::OutOfMemory.into());
    };
    let Some(mut two) = passes.pop() else {
        return Err(io::ErrorKind::OutOfMemory.into());
    };
    fill(rt, alloc, &ring, &mut feeder, load)?;
    let (fed, read) = thread::join(
        rt,
        || feed(rt, alloc, &ring, &mut feeder, load),
        ||
            requires one { one.home ≡ ring }
            requires two { two.home ≡ ring }
        { read_two(rt, &ring, &mut one, &mut two, load) },
    );
    done(fed, read)
}

// Four readers beside the feeder.
fn race_four<R: Threads + Wait + Clock + Sync>(
    rt: &R,
    alloc: Global,
    load: Load,
) -> io::Result<Reading> {
    let Ok((ring, mut feeder, mut passes)) = make_ring::<Untold>(
        alloc,
        MOST_RING_BYTES,
        MOST_RING_WINDOWS,
        4,
    ) else {
        return Err(io::ErrorKind::OutOfMemory.into());
    };
    let Some(mut one) = passes.pop() else {
        return Err(io::ErrorKind::OutOfMemory.into());
    };
    let Some(mut two) = passes.pop() else {
        return Err(io::ErrorKind::OutOfMemory.into());
    };
    let Some(mut three) = passes.pop() else {
        return Err(io::ErrorKind::OutOfMemory.into());
    };
    let Some(mut four) = passes.pop() else {
        return Err(io::ErrorKind::OutOfMemory.into());
    };
    fill(rt, alloc, &ring, &mut feeder, load)?;
    let (fed, read) = thread::join(
        rt,
        || feed(rt, alloc, &ring, &mut feeder, load),
        ||
            requires one { one.home ≡ ring }
            requires two { two.home ≡ ring }
            requires three { three.home ≡ ring }
            requires four { four.home ≡ ring }
        { read_four(rt, &ring, &mut one, &mut two, &mut three, &mut four, load) },
    );
    done(fed, read)
}

// What was read, where all was published.
fn done(fed: Option<()>, read: io::Result<Reading>) -> io::Result<Reading> {
    match fed {
        Some(()) => read,
        None => Err(io::ErrorKind::OutOfMemory.into()),
    }
}

/// So many readers, 1, 2 or 4, of a shared ring.
pub(crate) fn race_shared<R: Threads + Wait + Clock + Sync>(
    rt: &R,
    alloc: Global,
    readers: u64,
    load: Load,
) -> io::Result<Reading> {
    match readers {
        1 => race_one(rt, alloc, load),
        2 => race_two(rt, alloc, load),
        4 => race_four(rt, alloc, load),
        _ => Err(io::ErrorKind::InvalidInput.into()),
    }
}
