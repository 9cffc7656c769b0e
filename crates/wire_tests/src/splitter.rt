ghost use Rattle.std.specs.Prelude.{◌<◌};

use bus_types::Window;
use std::alloc::Global;
use std::test::Fail;
use window_stream::{SplitFault, Splitter};

// Window 10: a put of aa at source 0 and key 1, and its mark after 0.
const WINDOW_10: [u8; 41] = [
    1, 0, 0, 0, 0, 0, 0, 0, 0, 0, 10, 0, 0, 0, 0, 0, 0, 0, 1, 0, 0, 0, 1, 0xaa, 3, 0, 0, 0, 0, 0,
    0, 0, 10, 0, 0, 0, 0, 0, 0, 0, 0,
];

// Feeds a new splitter a stream in pieces of a size: the windows that it gave, and its last answer.
fn split(alloc: Global, stream: &[u8], size: usize) -> (Vec<Window>, Result<(), SplitFault>)
    requires { 0 < size }
{
    let mut splitter = Splitter::new(alloc, 0);
    let mut whole = Vec::new(alloc);
    let mut last = Ok(());
    let mut rest = stream;
    while !rest.is_empty() {
        let (piece, behind) = rest.split_at(size.min(rest.len()));
        last = splitter.feed(alloc, piece, &mut whole);
        rest = behind;
    }
    (whole, last)
}

#[test]
fn a_window_comes_with_its_last_byte(rt: HostRuntime) -> Result<(), Fail> {
    let (given, last) = split(rt.alloc(), &WINDOW_10[..40], 1);
    assert_eq!(rt; (given.len(), last), (0, Ok(())));
    let (given, last) = split(rt.alloc(), &WINDOW_10, 1);
    assert_eq!(rt; (given.len(), last), (1, Ok(())));
    let window = given.first().ok_or("a window")?;
    assert_eq!(rt; (window.scn(), window.prev(), window.size()), (10, 0, 41));
    Ok(())
}

#[test]
fn a_bad_stream_answers_the_same_at_each_feed(rt: HostRuntime) -> Result<(), Fail> {
    let mut splitter = Splitter::new(rt.alloc(), 0);
    let mut whole = Vec::new(rt.alloc());
    let Err(SplitFault::Bad { place }) = splitter.feed(rt.alloc(), &[4], &mut whole) else {
        return Err("a bad head".into());
    };
    let again = splitter.feed(rt.alloc(), &WINDOW_10, &mut whole);
    assert_eq!(rt;
        (place, again, whole.len()),
        (0, Err(SplitFault::Bad { place: 0 }), 0)
    );
    Ok(())
}
