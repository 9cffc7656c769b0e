use bus_types::{Change, Key, Payload, Window};
use event_codec::Served;
use partition_filter::Filter;
use plain_buffer::PlainBuffer;
use relay_core::{Buffer, relay_answer};
use std::alloc::Global;
use std::test::Fail;

/// The window with SCN 10 that puts aa at source 0, key 1.
const WINDOW: [u8; 41] = [
    1, 0, 0, 0, 0, 0, 0, 0, 0, 0, 10, 0, 0, 0, 0, 0, 0, 0, 1, 0, 0, 0, 1, 0xaa, // an event
    3, 0, 0, 0, 0, 0, 0, 0, 10, 0, 0, 0, 0, 0, 0, 0, 0, // its mark
];

/// A relay that published that window alone.
fn relay(alloc: Global) -> Option<PlainBuffer> {
    let mut changes = Vec::new(alloc);
    changes
        .push(Change {
            source: 0,
            key: Key::Long(1),
            put: Some(Payload::new(alloc, &[0xaa]).ok()?),
        })
        .ok()?;
    let window = Window::new(10, 0, changes).ok()?;
    let mut relay = PlainBuffer::new(alloc, 1_048_576, 2).ok()?;
    Buffer::publish(&mut relay, alloc, &window).ok()?;
    Some(relay)
}

/// What was served, and the bytes of the reply.
fn reply(alloc: Global, scn: u64, filter: &Filter) -> Option<(Served, Vec<u8>)> {
    let relay = relay(alloc)?;
    let mut reply = Vec::new(alloc);
    let served = relay_answer(alloc, &relay, scn, filter, 41, &mut reply).ok()?;
    Some((served, reply))
}

#[test]
fn a_reply_has_the_windows_or_the_answer(rt: HostRuntime) -> Result<(), Fail> {
    let alloc = rt.alloc();
    let (served, bytes) = reply(alloc, 0, &Filter::everything()).ok_or("a window")?;
    let windows = Served::Windows {
        count: 1,
        last: 10,
        bytes: 41,
    };
    assert_eq!(rt; served, windows);
    assert_eq!(rt; bytes.as_slice(), WINDOW.as_slice());

    let (served, bytes) = reply(alloc, 10, &Filter::everything()).ok_or("an end")?;
    assert_eq!(rt; served, Served::Empty(10));
    assert_eq!(rt;
        bytes.as_slice(),
        [0x21, 0, 0, 0, 0, 0, 0, 0, 10].as_slice()
    );
    Ok(())
}
