ghost use Rattle.std.specs.Prelude.{◌≡◌, ◌≤◌, ℕ, List, [], ◌∷◌, Option, None, false, is_err};
ghost use Rattle.bus_types.specs.Causes.{HasCause};
ghost use Rattle.event_codec.specs.View.{event_of};
ghost use Rattle.dispatcher.specs.Callbacks.{Call, taken, with_calls};
ghost use Rattle.dispatcher.specs.Callbacks.Callback.{OnStart, OnEvent, OnEnd, OnClear, OnRollback, OnCheckpoint};

use bus_types::MarkText;
use event_codec::EventView;

/// A consumer refused a callback.
#[derive(Clone, Copy, Debug, PartialEq, Eq)]
pub struct Refusal;

/// A consumer refused a callback, and was told to go back.
#[derive(Clone, Copy, Debug, PartialEq, Eq)]
pub struct Refused {
    /// The SCN that was told with the callback.
    pub scn: u64,
}

/// A consumer's program, which is told of what a reply holds and may refuse it. Each method is one call; `Refusal` comes
/// only where the count of refusals rose.
pub trait Consumer {
    // The calls in order, where it tells them.
    ghost calls: { Self → Option (List Call) };

    // How often it has refused. It has no greatest value.
    ghost refusals: { Self → ℕ };

    /// Whether it listens to replies, as each does that doesn't say otherwise. One that doesn't tells nothing of its
    /// calls, and isn't called for what a reply holds.
    fn listens(&self) -> bool
        ensures { result ≡ false → calls self.now ≡ None }
    {
        true
    }

    /// A window begins, or a run of rows or changes: its SCN.
    fn on_start(&mut self, scn: u64) -> Result<(), Refusal>
        ensures calls { calls self.new ≡ with_calls (record { callback = OnStart scn; refused = is_err result } ∷ []) (calls self.old) }
        ensures cause { HasCause (refusals self.old) (refusals self.new) result };

    /// An event of the window or run of this SCN.
    fn on_event(&mut self, scn: u64, event: &EventView<'_>) -> Result<(), Refusal>
        ensures calls { calls self.new ≡ with_calls (record { callback = OnEvent scn (event_of event.now); refused = is_err result } ∷ [])
            (calls self.old) }
        ensures cause { HasCause (refusals self.old) (refusals self.new) result };

    /// The window or run of this SCN ends.
    fn on_end(&mut self, scn: u64) -> Result<(), Refusal>
        ensures calls { calls self.new ≡ with_calls (record { callback = OnEnd scn; refused = is_err result } ∷ []) (calls self.old) }
        ensures cause { HasCause (refusals self.old) (refusals self.new) result };

    /// A snapshot begins, so all rows are to be dropped: the SCN where it begins.
    fn on_clear(&mut self, scn: u64) -> Result<(), Refusal>
        ensures calls { calls self.new ≡ with_calls (record { callback = OnClear scn; refused = is_err result } ∷ []) (calls self.old) }
        ensures cause { HasCause (refusals self.old) (refusals self.new) result };

    /// What was told since the last checkpoint will be told again: the SCN to go back to.
    fn on_rollback(&mut self, scn: u64)
        ensures calls { calls self.new ≡ with_calls (taken (OnRollback scn) ∷ []) (calls self.old) }
        ensures later { refusals self.old ≤ refusals self.new };

    /// A checkpoint was stored: its text.
    fn on_checkpoint(&mut self, mark: &MarkText)
        ensures calls { calls self.new ≡ with_calls (taken (OnCheckpoint mark.now) ∷ []) (calls self.old) }
        ensures later { refusals self.old ≤ refusals self.new };
}

/// A consumer's program that doesn't listen, never refuses, and tells nothing of its calls.
#[derive(Clone, Copy, Debug, PartialEq, Eq)]
pub struct NoCallbacks;

impl Consumer for NoCallbacks {
    ghost use Rattle.std.specs.Prelude.{None};

    ghost calls = { λ _. None };

    ghost refusals = { λ _. 0 };

    fn listens(&self) -> bool {
        false
    }

    fn on_start(&mut self, _scn: u64) -> Result<(), Refusal> {
        Ok(())
    }

    fn on_event(&mut self, _scn: u64, _event: &EventView<'_>) -> Result<(), Refusal> {
        Ok(())
    }

    fn on_end(&mut self, _scn: u64) -> Result<(), Refusal> {
        Ok(())
    }

    fn on_clear(&mut self, _scn: u64) -> Result<(), Refusal> {
        Ok(())
    }

    fn on_rollback(&mut self, _scn: u64) {}

    fn on_checkpoint(&mut self, _mark: &MarkText) {}
}
