use bus_types::{Change, Key, Payload, Window, WindowFault};
use std::alloc::Global;
use std::test::Fail;

// A put of so many bytes.
fn put(alloc: Global, bytes: usize) -> Option<Change> {
    let zeros = vec![in alloc; 0u8; bytes].ok()?;
    Some(Change {
        source: 7,
        key: Key::Long(1),
        put: Some(Payload::new(alloc, &zeros).ok()?),
    })
}

// Fifteen puts of 65,512 bytes each, and one of so many bytes.
fn large(alloc: Global, last: usize) -> Option<Vec<Change>> {
    let mut changes = Vec::new(alloc);
    for _ in 0..15 {
        changes.push(put(alloc, 65_512)?).ok()?;
    }
    changes.push(put(alloc, last)?).ok()?;
    Some(changes)
}

#[test]
fn a_window_of_the_greatest_size_is_made_and_copied(rt: HostRuntime) -> Result<(), Fail> {
    let changes = large(rt.alloc(), 65_511).ok_or("changes")?;
    let window = Window::new(6, 5, changes).ok().ok_or("a window")?;
    let copy = window.copy(rt.alloc()).ok().ok_or("its copy")?;
    assert_eq!(rt; (copy.size(), copy.changes().len()), (1_048_576, 16));
    Ok(())
}

#[test]
fn a_window_of_a_byte_more_is_refused(rt: HostRuntime) -> Result<(), Fail> {
    let changes = large(rt.alloc(), 65_512).ok_or("changes")?;
    let Err((fault, back)) = Window::new(6, 5, changes) else {
        return Err("a window that is too large".into());
    };
    assert_eq!(rt; (fault, back.len()), (WindowFault::TooLarge, 16));
    Ok(())
}
