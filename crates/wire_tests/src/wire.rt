use bus_wire::{Ask, ReplyView, Shape, check_reply, read_reply};
use partition_filter::Filter;
use std::test::Fail;

// The window with SCN 10 after 0 that puts aa at source 0, key 1.
const WINDOW_10: [u8; 41] = [
    1, 0, 0, 0, 0, 0, 0, 0, 0, 0, 10, 0, 0, 0, 0, 0, 0, 0, 1, 0, 0, 0, 1, 0xaa, // the event
    3, 0, 0, 0, 0, 0, 0, 0, 10, 0, 0, 0, 0, 0, 0, 0, 0, // the mark
];

// The windows after an SCN of all rows, in at most 100 bytes.
fn stream(scn: u64) -> Ask {
    Ask::Stream {
        scn,
        filter: Filter::everything(),
        max: 100,
    }
}

fn place_of(ask: &Ask, bytes: &[u8]) -> Option<u64> {
    match check_reply(ask, bytes) {
        Ok(_) => None,
        Err(fault) => Some(fault.place),
    }
}

#[test]
fn a_reply_is_read_where_it_stands(rt: HostRuntime) -> Result<(), Fail> {
    let Ok(ReplyView::Windows(mut windows)) = read_reply(&stream(0), &WINDOW_10) else {
        return Err("windows".into());
    };
    let window = windows.next().ok_or("a window")?;
    let (event, own) = window.events().next().ok_or("an event")?;
    assert_eq!(rt; (window.scn(), window.prev(), event.key), (10, 0, 1));
    assert_eq!(rt; (event.payload, own), ([0xaa].as_slice(), &WINDOW_10[..24]));
    assert!(rt; windows.next().is_none());
    Ok(())
}

#[test]
fn a_reply_is_whole_behind_a_mark(rt: HostRuntime) {
    let whole = check_reply(&stream(0), &WINDOW_10).ok();
    assert_eq!(rt; whole, Some(Shape::Windows { count: 1, last: 10 }));
    assert_eq!(rt; place_of(&stream(0), &WINDOW_10[..40]), Some(24));
    assert_eq!(rt; place_of(&stream(0), &WINDOW_10[..23]), Some(0));
    assert_eq!(rt; place_of(&stream(10), &WINDOW_10), Some(0));
}

#[test]
fn answers_are_those_of_the_ask(rt: HostRuntime) {
    for (kind, number, place) in [
        (0x20, 10, Some(0)),
        (0x20, 11, None),
        (0x21, 10, None),
        (0x21, 11, Some(0)),
        (0x22, 100, Some(0)),
        (0x22, 101, None),
        (0x23, 5, Some(0)),
        (0x28, 10, Some(0)),
    ] {
        let bytes = [kind, 0, 0, 0, 0, 0, 0, 0, number];
        assert_eq!(rt;
            place_of(&stream(10), &bytes),
            place,
            "kind {kind}, {number}"
        );
    }
}
