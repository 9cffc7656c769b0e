ghost use Rattle.std.specs.Prelude.{◌≡◌, ◌≤◌};
ghost use Rattle.bus_types.specs.Counting.{next_count};
ghost use Rattle.bus_stores.specs.Memory.{stop_at, listed_stop};

use crate::keeper::Stop;
use bus_types::Plan;

/// A call that is to fail.
#[derive(Clone, Copy, Debug, PartialEq, Eq)]
pub struct Fail {
    /// The number of the call, counted from 0.
    pub call: u64,
    /// Whether a commit is to fail after it counts, and not before.
    pub after: bool,
}

/// Counts a call, and answers the stop that is listed for it.
pub(crate) fn next_stop(plan: &mut Plan<Fail>) -> Option<Stop>
    ensures listed { result ≡ listed_stop plan.old.fails.items plan.old.calls }
    ensures counted { plan.new ≡ record plan.old { calls = next_count plan.old.calls } }
    ensures later { plan.old.calls ≤ plan.new.calls }
{
    let call = plan.next_call();
    listed_stop(&plan.fails, call)
}

// The stop that is listed for a call.
fn listed_stop(fails: &[Fail], call: u64) -> Option<Stop>
    ensures { result ≡ listed_stop fails.now call }
{
    let fail = fails.iter().find(|fail| fail.call == call)?;
    Some(stop_at(fail.after))
}

/// The stop after a commit counts, or before.
pub(crate) fn stop_at(after: bool) -> Stop
    ensures { result ≡ stop_at after }
{
    if after { Stop::After } else { Stop::Before }
}
