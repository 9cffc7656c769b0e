/// Names one list of windows in contracts, and holds nothing at run time. A type that tells its list tells a
/// timeline: SCNs that rise, and each window chained to the one before it.
pub trait Timeline: Send + Sync {
    ghost use Rattle.std.specs.Prelude.{List, Option};
    ghost use Rattle.bus_types.specs.Window.{Span};
    ghost use Rattle.bus_types.specs.Timeline.{IsTold};

    /// The windows, where it tells them.
    ghost told: { Option (List Span) };

    /// They are a timeline.
    ghost lawful: { IsTold told };
}

/// The timeline of which nothing is told.
#[derive(Clone, Copy, Debug, PartialEq, Eq)]
pub struct Untold;

impl Timeline for Untold {
    ghost use Rattle.std.specs.Prelude.{None};

    ghost told = { None };

    ghost lawful = { tt };
}
