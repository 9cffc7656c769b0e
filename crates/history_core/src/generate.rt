ghost use Rattle.std.specs.Prelude.{◌≡◌, ◌≤◌, ◌++◌, OnOk};
ghost use Rattle.bus_types.specs.Timeline.{end_of};
ghost use Rattle.generated_windows.specs.Generated.{generated};
ghost use Rattle.history_core.specs.Steps.{last_generated};

use bus_types::NoMemory;
use source_db::CommitQueue;
use std::alloc::Global;
use trace_script::gen_window;

/// Commits so many windows that are made from a number. After want of memory it isn't used again.
pub(crate) fn commit_generated(
    alloc: Global,
    source: &mut CommitQueue,
    seed: u32,
    count: u32,
) -> Result<(), NoMemory>
    requires low { end_of source.old.windows ≤ last_generated }
    requires few { count ≤ 100000 }
    ensures commits { OnOk result (source.new.windows ≡ source.old.windows ++ generated count seed (end_of source.old.windows)) }
    ensures passed { source.new.passed ≡ source.old.passed }
{
    let mut state = seed;
    for _i in 0..count {
        let window = gen_window(alloc, &mut state, source.last())?;
        source.append(alloc, window)?;
    }
    Ok(())
}
