ghost use Rattle.std.specs.Prelude.{◌≡◌, ◌<◌, ◌≤◌, ◌+◌, ◌^◌, IfSome, OnSome};

use bus_types::{Change, Key, Untold, Window};
use range_ring::{Feeder, Numbers, Pass, Ring, make_ring};
use ring_cells::Entry;
use std::alloc::Global;
use std::sync::Wait;
use std::test::Fail;
use std::thread;

/// The window of one delete, as the entry of its position.
fn entry(alloc: Global, scn: u64, prev: u64, position: u64) -> Option<Entry<Untold>>
    requires { position < scn }
    ensures { IfSome result (λ e. e.position ≡ position) }
{
    let mut changes = Vec::new(alloc);
    changes
        .push(Change {
            source: 0,
            key: Key::Long(scn),
            put: None,
        })
        .ok()?;
    let window = Window::new(scn, prev, changes).ok()?;
    Entry::new(alloc, &window, position).ok()
}

fn publish<R: Wait>(
    rt: &R,
    alloc: Global,
    ring: &Ring<Untold>,
    feeder: &mut Feeder<Untold>,
    scn: u64,
    prev: u64,
) -> Option<()>
    requires home { feeder.old.home ≡ ring.now }
    requires below { feeder.old.published < scn }
    ensures home { feeder.new.home ≡ ring.now }
    ensures published { OnSome result (feeder.new.published ≡ feeder.old.published + 1) }
{
    let entry = entry(alloc, scn, prev, feeder.numbers().published)?;
    feeder.publish(rt, ring, entry);
    Some(())
}

/// Reads the newest number until it is the last one, and tells whether it never fell.
fn read_up_to<R: Wait>(rt: &R, ring: &Ring<Untold>, pass: &mut Pass<Untold>, last: u64) -> bool
    requires { pass.old.home ≡ ring.now }
{
    let mut before = 0;
    for _ in rt.forever() {
        let newest = pass.newest(ring);
        if newest < before {
            return false;
        }
        if newest >= last {
            return pass.oldest(ring) <= newest;
        }
        before = newest;
        thread::yield_now();
    }
    unreachable!()
}

/// Publishes so many windows, the first at the SCN 1.
fn publish_up_to<R: Wait>(
    rt: &R,
    alloc: Global,
    ring: &Ring<Untold>,
    feeder: &mut Feeder<Untold>,
    last: u32,
) -> Option<()>
    requires home { feeder.old.home ≡ ring.now }
    requires first { feeder.old.published ≡ 0 }
{
    for prev in 0..last as u64 {
        publish(rt, alloc, ring, feeder, prev + 1, prev)?;
    }
    Some(())
}

#[test]
fn a_pass_sees_what_a_note_tells(rt: HostRuntime) -> Result<(), Fail> {
    let (ring, mut feeder, mut passes) = make_ring::<Untold>(rt.alloc(), 1_048_576, 2, 2)?;
    publish(&rt, rt.alloc(), &ring, &mut feeder, 10, 0).ok_or("the first")?;
    publish(&rt, rt.alloc(), &ring, &mut feeder, 20, 10).ok_or("the second")?;
    publish(&rt, rt.alloc(), &ring, &mut feeder, 30, 20).ok_or("the third")?;
    let numbers = Numbers {
        evicted: 1,
        published: 3,
    };
    assert_eq!(rt; feeder.numbers(), numbers);
    let note = feeder.note(&ring);
    let mut pass = passes.pop().ok_or("a pass")?;
    pass.meet(&ring, note);
    assert_eq!(rt; pass.seen(), numbers);
    let mut other = passes.pop().ok_or("another pass")?;
    assert!(rt; passes.pop().is_none());
    assert_eq!(rt; (other.oldest(&ring), other.newest(&ring)), (1, 3));
    Ok(())
}

#[test]
fn a_reader_in_another_thread_sees_them_come(rt: HostRuntime) -> Result<(), Fail> {
    let (ring, mut feeder, mut passes) = make_ring::<Untold>(rt.alloc(), 1_048_576, 4, 1)?;
    let mut pass = passes.pop().ok_or("a pass")?;
    let alloc = rt.alloc();
    let (rises, done) = thread::join(
        &rt,
        || read_up_to(&rt, &ring, &mut pass, 1000),
        || publish_up_to(&rt, alloc, &ring, &mut feeder, 1000),
    );
    assert!(rt; rises && done.is_some());
    Ok(())
}
