ghost use Rattle.std.specs.Prelude.{◌≡◌, ◌<◌, length, IfSome, OnSome};

use bus_io::{MemorySink, WriteFault};
use bus_types::{Change, Everything, Key, Payload, Window};
use event_codec::Served;
use plain_buffer::PlainBuffer;
use std::alloc::Global;
use std::test::Fail;

/// The window with SCN 20 after 10 that puts 14 at source 0, key 2, and the one with SCN 30 after 20 that puts 1e at key 3.
const WINDOWS: [u8; 82] = [
    1, 0, 0, 0, 0, 0, 0, 0, 0, 0, 20, 0, 0, 0, 0, 0, 0, 0, 2, 0, 0, 0, 1, 20, // an event
    3, 0, 0, 0, 0, 0, 0, 0, 20, 0, 0, 0, 0, 0, 0, 0, 10, // its mark
    1, 0, 0, 0, 0, 0, 0, 0, 0, 0, 30, 0, 0, 0, 0, 0, 0, 0, 3, 0, 0, 0, 1, 30, // an event
    3, 0, 0, 0, 0, 0, 0, 0, 30, 0, 0, 0, 0, 0, 0, 0, 20, // its mark
];

/// The window of one put of one byte at a key of source 0.
fn window(alloc: Global, scn: u64, prev: u64, key: u64) -> Option<Window>
    ensures scn { IfSome result (λ w. w.scn ≡ scn) }
    ensures prev { IfSome result (λ w. w.prev ≡ prev) }
    ensures full { IfSome result (λ w. 0 < length w.changes) }
{
    let payload = Payload::new(alloc, &[(scn % 256) as u8]).ok()?;
    let mut changes = Vec::new(alloc);
    changes
        .push(Change {
            source: 0,
            key: Key::Long(key),
            put: Some(payload),
        })
        .ok()?;
    Window::new(scn, prev, changes).ok()
}

fn publish(alloc: Global, relay: &mut PlainBuffer, scn: u64, prev: u64, key: u64) -> Option<()>
    requires { prev ≡ relay.old.tail }
    ensures { OnSome result (relay.new.tail ≡ scn) }
{
    let window = window(alloc, scn, prev, key)?;
    relay.publish(alloc, &window).ok()
}

/// A relay with room for two windows that published those with the SCNs 10, 20 and 30.
fn relay(alloc: Global) -> Option<PlainBuffer> {
    let mut relay = PlainBuffer::new(alloc, 1_048_576, 2).ok()?;
    publish(alloc, &mut relay, 10, 0, 1)?;
    publish(alloc, &mut relay, 20, 10, 2)?;
    publish(alloc, &mut relay, 30, 20, 3)?;
    Some(relay)
}

#[test]
fn a_buffer_serves_the_windows_that_it_keeps(rt: HostRuntime) -> Result<(), Fail> {
    let relay = relay(rt.alloc()).ok_or("a relay")?;
    assert_eq!(rt; (relay.floor(), relay.tail()), (10, 30));
    let mut out = MemorySink::new(rt.alloc(), 100, &[])?;
    let served = relay.serve(10, &Everything, 1_000, &mut out);
    let windows = Served::Windows {
        count: 2,
        last: 30,
        bytes: 82,
    };
    assert_eq!(rt; served, Ok(windows));
    assert_eq!(rt; out.bytes(), WINDOWS.as_slice());
    Ok(())
}

#[test]
fn a_fault_tells_what_went_out(rt: HostRuntime) -> Result<(), Fail> {
    let relay = relay(rt.alloc()).ok_or("a relay")?;
    let mut out = MemorySink::new(rt.alloc(), 100, &[3])?;
    let served = relay.serve(10, &Everything, 1_000, &mut out);
    assert_eq!(rt; served, Err(WriteFault { written: 41 }));
    assert_eq!(rt; out.bytes(), &WINDOWS[..41]);
    Ok(())
}
