ghost use Rattle.std.specs.Prelude.{◌≡◌, ℕ, List, None};
ghost use Rattle.bus_types.specs.Window.{Span};
ghost use Rattle.window_stream.specs.Stream.{Split, ReadsAs};

/// A law of streams in pieces: however a stream was cut, the same windows were given, it is bad at the same place or
/// nowhere, and where it isn't bad what the splitter knows of it is the same too.
pub fn a_stream_is_split_in_one_way()
    ensures windows { (floor : ℕ) (stream : List ℕ) (ws vs : List Span) (one other : Split) →
        ReadsAs floor stream ws one → ReadsAs floor stream vs other → ws ≡ vs }
    ensures place { (floor : ℕ) (stream : List ℕ) (ws vs : List Span) (one other : Split) →
        ReadsAs floor stream ws one → ReadsAs floor stream vs other → one.bad ≡ other.bad }
    ensures rest { (floor : ℕ) (stream : List ℕ) (ws vs : List Span) (one other : Split) →
        ReadsAs floor stream ws one → ReadsAs floor stream vs other → one.bad ≡ None → one ≡ other }
{}
