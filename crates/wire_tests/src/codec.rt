ghost use Rattle.std.specs.Prelude.{◌==◌, ◌%◌};
ghost use Rattle.bus_types.specs.declared.change.Key.TheVariants.{Long};

use bus_types::{Accepts, Change, Key, Payload, Window};
use event_codec::{EventView, mark_at, write_filtered, write_window};
use std::alloc::Global;
use std::test::Fail;

// The window with SCN 10 after 0 that puts aa at source 0, key 1.
const WINDOW_10: [u8; 41] = [
    1, 0, 0, 0, 0, 0, 0, 0, 0, 0, 10, 0, 0, 0, 0, 0, 0, 0, 1, 0, 0, 0, 1, 0xaa, // the event
    3, 0, 0, 0, 0, 0, 0, 0, 10, 0, 0, 0, 0, 0, 0, 0, 0, // the mark
];

// Accepts the rows with even keys.
struct EvenKeys;

impl Accepts for EvenKeys {
    ghost test = { λ _ _ key. elim key [ Long k ↦ k % 2 == 0 ] };

    fn accepts(&self, _source: u16, key: &Key) -> bool {
        let Key::Long(key) = *key;
        key % 2 == 0
    }
}

fn window_10(alloc: Global) -> Option<Window> {
    let mut changes = Vec::new(alloc);
    changes
        .push(Change {
            source: 0,
            key: Key::Long(1),
            put: Some(Payload::new(alloc, &[0xaa]).ok()?),
        })
        .ok()?;
    Window::new(10, 0, changes).ok()
}

#[test]
fn a_window_is_appended_byte_by_byte(rt: HostRuntime) -> Result<(), Fail> {
    let window = window_10(rt.alloc()).ok_or("a window")?;
    let mut out = vec![in rt.alloc(); 7u8; 1]?;
    write_window(rt.alloc(), &window, &mut out)
        .ok()
        .ok_or("room")?;
    assert_eq!(rt; out.split_first(), Some((&7, WINDOW_10.as_slice())));
    Ok(())
}

#[test]
fn a_filter_that_accepts_nothing_leaves_the_mark(rt: HostRuntime) -> Result<(), Fail> {
    let window = window_10(rt.alloc()).ok_or("a window")?;
    let mut out = Vec::new(rt.alloc());
    write_filtered(rt.alloc(), &window, &EvenKeys, &mut out)
        .ok()
        .ok_or("room")?;
    assert_eq!(rt; out.as_slice(), &WINDOW_10[24..]);
    Ok(())
}

#[test]
fn an_event_in_place_gives_its_change(rt: HostRuntime) -> Result<(), Fail> {
    let (view, next) = EventView::at(&WINDOW_10, 0).ok_or("an event")?;
    let change = view.change(rt.alloc()).ok().ok_or("room")?;
    let put = change.put.as_ref().ok_or("a put")?;
    assert_eq!(rt; (put.bytes(), next), ([0xaau8].as_slice(), 24));
    assert_eq!(rt; mark_at(&WINDOW_10, next), Some((10, 0)));
    Ok(())
}
