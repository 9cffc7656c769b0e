ghost use Rattle.std.specs.Prelude.{IfOk};
ghost use Rattle.event_codec.specs.Parsing.{HaveEvents};
ghost use Rattle.window_stream.specs.Decode.{AreEventsOf};

use bus_types::{Change, NoMemory};
use event_codec::Run;
use std::alloc::Global;

// The changes of events that stand one after the other, so many.
pub(crate) fn changes_of(alloc: Global, count: usize, bytes: &[u8]) -> Result<Vec<Change>, NoMemory>
    requires { HaveEvents bytes.now }
    ensures { IfOk result (λ changes. AreEventsOf changes.items bytes.now) }
{
    let mut changes = Vec::with_capacity(alloc, count)?;
    let mut left = Run::of(bytes);
    while let Some((event, _own)) = left.next() {
        changes.push(event.change(alloc)?)?;
    }
    Ok(changes)
}
