ghost use Rattle.std.specs.Prelude.{◌≡◌, ◌≤◌, ◌++◌, length, true, OnOk};
ghost use Rattle.bus_types.specs.Timeline.{end_of};
ghost use Rattle.generated_windows.specs.Generated.{generated};
ghost use Rattle.trace_script.specs.Spelling.{is_in_range};
ghost use Rattle.relay_node.specs.Feeding.{commit_gives, gen_gives, line_gives, last_generated};
ghost use Rattle.relay_node.specs.Pieces.{next_gives, sent_after, BeginWith, StandNext, Takes};
ghost use Rattle.relay_node.specs.declared.line.LineStop.TheVariants as stops;

use crate::publisher::Publisher;
use bus_types::{Changes, NoMemory, Timeline, Window};
use std::alloc::Global;
use std::sync::Wait;
use trace_script::{Line, LineFault, gen_window, read_line};

/// The most windows of an input.
const MOST_WINDOWS: u64 = 1_000_000;

/// Behind this SCN there is room for the windows of a line.
const LAST_GENERATED: u64 = 9_223_372_036_854_475_807;

/// Why a line was not taken.
#[derive(Clone, Copy, Debug, PartialEq, Eq)]
pub(crate) enum LineStop {
    /// It is outside the grammar or against a rule.
    BadLine,
    /// It is of scripts, and not of a relay's input.
    WrongWord,
    /// Memory ran out.
    NoMemory,
}

impl From<NoMemory> for LineStop {
    ghost from_gives = { λ _ e. e ≡ stops.NoMemory };

    fn from(_: NoMemory) -> Self {
        LineStop::NoMemory
    }
}

/// Publishes the windows that a text gives as the next line. Where windows are told, these stand next.
#[tactic(auto, unfolding(crate::specs::Feeding::text_gives))]
pub(crate) fn take_text<R: Wait, T: Timeline>(
    alloc: Global,
    text: &[u8],
    publisher: &mut Publisher<'_, R, T>,
) -> Result<(), LineStop>
    requires { StandNext T.told publisher.old (next_gives publisher.old text.now) }
    ensures { Takes result (next_gives publisher.old text.now) publisher.old publisher.new }
{
    match read_line(alloc, text) {
        Ok(line) => take_line(alloc, line, publisher),
        Err(LineFault::BadLine) => Err(LineStop::BadLine),
        Err(LineFault::NoMemory) => Err(LineStop::NoMemory),
    }
}

#[tactic(auto, using(crate::proofs::Published::blank_published))]
fn take_line<R: Wait, T: Timeline>(
    alloc: Global,
    line: Line,
    publisher: &mut Publisher<'_, R, T>,
) -> Result<(), LineStop>
    requires range { is_in_range line ≡ true }
    requires next { StandNext T.told publisher.old (line_gives (end_of publisher.old.windows) (length publisher.old.windows) line) }
    ensures { Takes result (line_gives (end_of publisher.old.windows) (length publisher.old.windows) line) publisher.old publisher.new }
{
    match line {
        Line::Blank => Ok(()),
        Line::Commit { scn, changes } => commit(alloc, scn, changes, publisher),
        Line::Gen { seed, count: more } => generate(alloc, seed, more, publisher),
        _ => Err(LineStop::WrongWord),
    }
}

// Publishes one window.
fn commit<R: Wait, T: Timeline>(
    alloc: Global,
    scn: u64,
    changes: Changes,
    publisher: &mut Publisher<'_, R, T>,
) -> Result<(), LineStop>
    requires { StandNext T.told publisher.old (commit_gives (end_of publisher.old.windows) (length publisher.old.windows) scn changes) }
    ensures { Takes result (commit_gives (end_of publisher.old.windows) (length publisher.old.windows) scn changes) publisher.old publisher.new }
{
    let Ok(window) = Window::new(scn, publisher.tail(), changes.into_vec()) else {
        return Err(LineStop::BadLine);
    };
    if publisher.count() >= MOST_WINDOWS {
        return Err(LineStop::BadLine);
    }
    publisher.publish(alloc, &window)?;
    Ok(())
}

// Publishes windows that are made from a number, where there is room for them.
fn generate<R: Wait, T: Timeline>(
    alloc: Global,
    seed: u32,
    more: u32,
    publisher: &mut Publisher<'_, R, T>,
) -> Result<(), LineStop>
    requires few { more ≤ 100000 }
    requires next { StandNext T.told publisher.old (gen_gives (end_of publisher.old.windows) (length publisher.old.windows) seed more) }
    ensures { Takes result (gen_gives (end_of publisher.old.windows) (length publisher.old.windows) seed more) publisher.old publisher.new }
{
    if publisher.tail() > LAST_GENERATED {
        return Err(LineStop::BadLine);
    }
    if publisher.count().saturating_add(u64::from(more)) > MOST_WINDOWS {
        return Err(LineStop::BadLine);
    }
    publish_generated(alloc, seed, more, publisher)?;
    Ok(())
}

// Publishes so many windows that are made from a number.
fn publish_generated<R: Wait, T: Timeline>(
    alloc: Global,
    seed: u32,
    more: u32,
    publisher: &mut Publisher<'_, R, T>,
) -> Result<(), NoMemory>
    requires low { end_of publisher.old.windows ≤ last_generated }
    requires few { more ≤ 100000 }
    requires next { BeginWith T.told (publisher.old.windows ++ generated more seed (end_of publisher.old.windows)) }
    ensures { OnOk result (publisher.new ≡ sent_after publisher.old (generated more seed (end_of publisher.old.windows))) }
{
    let mut state = seed;
    for _i in 0..more {
        let window = gen_window(alloc, &mut state, publisher.tail())?;
        publisher.publish(alloc, &window)?;
    }
    Ok(())
}
