ghost use Rattle.std.specs.Prelude.{◌≡◌, ◌<◌, IfOk};
ghost use Rattle.event_codec.specs.Bytes.{window_bytes};
ghost use Rattle.ring_cells.specs.Entries.{IsAt, IsEntry};

use bus_types::{NoMemory, Timeline, Window};
use counted_slot::Fits;
use event_codec::write_window;
use std::alloc::Global;
use std::marker::{Model, PhantomData};

/// A window as a ring keeps it: its bytes in full, and its position in its timeline, from 0 on. Where `T` tells the
/// timeline, the bytes are those of the timeline's window at that position.
#[derive(Debug, Drop)]
pub struct Entry<T: Timeline> {
    pub(crate) position: u64,
    pub(crate) bytes: Vec<u8>,
    timeline: PhantomData<T>,
}

impl<T: Timeline> Model for Entry<T> {
    ghost use Rattle.ring_cells.specs.Entries.{Held, IsEntry};

    ghost Value = { Held };

    ghost view = { λ e. record { position = e.position; bytes = e.bytes.items } };

    ghost invariant = { λ e. IsEntry T.told (record { position = e.position; bytes = e.bytes.items }) };
}

impl<T: Timeline> Fits for Entry<T> {
    type Tag = ();

    ghost fits = { λ _ _. Unit {0} };
}

impl<T: Timeline> Entry<T> {
    /// The entry of a window at its position in the timeline. A position is below its window's SCN, as in every
    /// timeline.
    pub fn new(alloc: Global, window: &Window, position: u64) -> Result<Entry<T>, NoMemory>
        requires below { position < window.now.scn }
        requires told { IsAt T.told position window.now }
        ensures { IfOk result (λ e. e ≡ record { position = position; bytes = window_bytes window.now }) }
    {
        let mut bytes = Vec::with_capacity(alloc, window.size() as usize)?;
        write_window(alloc, window, &mut bytes)?;
        Ok(Entry {
            position,
            bytes,
            timeline: PhantomData,
        })
    }

    /// The position of its window.
    pub fn position(&self) -> u64
        ensures value { result ≡ self.now.position }
        ensures fits { IsEntry T.told self.now }
    {
        self.position
    }

    /// The window's bytes.
    pub fn bytes(&self) -> &[u8]
        ensures value { result.now ≡ self.now.bytes }
        ensures fits { IsEntry T.told self.now }
    {
        &self.bytes
    }
}
