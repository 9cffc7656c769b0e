use bus_types::Timeline;
use std::marker::{Brand, PhantomData};

/// Names windows, which the caller of a function picks.
pub(crate) trait Naming: Send + Sync {
    ghost use Rattle.std.specs.Prelude.{List, Option};
    ghost use Rattle.bus_types.specs.Window.{Span};
    ghost use Rattle.bus_types.specs.Timeline.{IsTold};

    /// The windows, where they are told.
    ghost windows: { Option (List Span) };

    /// They are a timeline.
    ghost lawful: { IsTold windows };
}

impl Naming for Brand {
    ghost use Rattle.std.specs.Prelude.{None};

    ghost windows = { None };

    ghost lawful = { tt };
}

/// The timeline of the windows that `N` names.
#[derive(Drop)]
pub(crate) struct Named<N>(PhantomData<N>);

impl<N: Naming> Timeline for Named<N> {
    ghost told = { N.windows };

    ghost lawful = { N.lawful };
}
