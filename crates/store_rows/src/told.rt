ghost use Rattle.std.specs.Prelude.{None};
ghost use Rattle.bus_types.specs.Causes.{HasCause};

use crate::words::shown;
use bus_types::{Count, MarkText};
use dispatcher::{Consumer, Refusal};
use event_codec::EventView;
use std::alloc::Global;
use std::fmt::Write;

/// Writes down what it is told, and refuses from a call on. It can't tell its calls to a contract, since `on_rollback` and
/// `on_checkpoint` can't refuse where memory runs out.
#[derive(Drop)]
pub struct Told {
    pub text: String,
    left: u32,
    refusals: Count,
}

impl Told {
    /// It takes so many calls before it refuses.
    pub fn new(alloc: Global, left: u32) -> Told {
        Told {
            text: String::new(alloc),
            left,
            refusals: Count::zero(),
        }
    }

    fn note(&mut self, word: &str, scn: u64) -> Result<(), Refusal>
        ensures { HasCause self.old.refusals self.new.refusals result }
    {
        if write!(self.text, ", {word} {scn}").is_err() || self.left == 0 {
            self.refusals.raise();
            return Err(Refusal);
        }
        self.left -= 1;
        Ok(())
    }
}

impl Consumer for Told {
    ghost calls = { λ _. None };

    ghost refusals = { λ t. t.refusals };

    fn on_start(&mut self, scn: u64) -> Result<(), Refusal> {
        self.note("start", scn)
    }

    fn on_event(&mut self, scn: u64, _event: &EventView<'_>) -> Result<(), Refusal> {
        self.note("event", scn)
    }

    fn on_end(&mut self, scn: u64) -> Result<(), Refusal> {
        self.note("end", scn)
    }

    fn on_clear(&mut self, scn: u64) -> Result<(), Refusal> {
        self.note("clear", scn)
    }

    fn on_rollback(&mut self, scn: u64) {
        let _ = write!(self.text, ", rollback {scn}");
    }

    fn on_checkpoint(&mut self, mark: &MarkText) {
        let _ = write!(self.text, ", checkpoint {}", shown(mark.bytes()));
    }
}
