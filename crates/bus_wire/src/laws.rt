ghost use Rattle.std.specs.Prelude.{◌≡◌, List, ℕ};
ghost use Rattle.bus_types.specs.Window.{Span};
ghost use Rattle.bus_types.specs.Timeline.{IsTimeline};
ghost use Rattle.bus_types.specs.Relay.{Relay, answer_of, StandsFor};
ghost use Rattle.partition_filter.specs.Selection.{Selection, test_of};
ghost use Rattle.event_codec.specs.declared.reply.Shape.{Shape};
ghost use Rattle.event_codec.specs.Streams.{windows_bytes};
ghost use Rattle.bus_wire.specs.declared.ask.Ask.{Ask};
ghost use Rattle.bus_wire.specs.declared.ask.Ask.TheVariants.{Stream};
ghost use Rattle.bus_wire.specs.Lawful.{IsRun, IsLawful, IsFaultAt};
ghost use Rattle.bus_wire.specs.Asks.{question_of, test_in, IsAsk, AsksBootstrap};
ghost use Rattle.bus_wire.specs.Served.{IsLawfullyServed};
ghost use Rattle.bus_wire.specs.True.{Boot, IsBoot, boot_reply};
ghost use Rattle.bus_wire.specs.Booted.{IsLimited, IsLawfullyBooted};

/// A law of replies: each is lawful in one shape, with the same windows however they are read, or at fault at one place,
/// and not both.
pub fn a_reply_has_one_shape()
    ensures shape { (ask : Ask) (bytes : List ℕ) (one other : Shape) → IsLawful ask bytes one → IsLawful ask bytes other → one ≡ other }
    ensures windows { (floor top : ℕ) (filter : Selection) (ws vs : List Span) → IsRun floor top filter ws → IsRun floor top filter vs
        → windows_bytes ws ≡ windows_bytes vs → ws ≡ vs }
    ensures place { (ask : Ask) (bytes : List ℕ) (place other : ℕ) → IsFaultAt ask bytes place → IsFaultAt ask bytes other → place ≡ other }
    ensures unlawful { (ask : Ask) (bytes : List ℕ) (place : ℕ) (shape : Shape) → IsFaultAt ask bytes place → IsLawful ask bytes shape → ⊥ }
{}

/// A law of a relay's replies: what a relay that stands for a timeline answers to who asks for a stream is a lawful reply,
/// as bytes.
pub fn a_relay_answers_lawfully()
    ensures { (ws : List Span) (relay : Relay) (scn : ℕ) (filter : Selection) (max : ℕ) → StandsFor ws relay →
        IsLawfullyServed (Stream scn filter max) (answer_of relay scn (test_of filter) max) }
{}

/// A law of a bootstrap's replies: what a bootstrap of a timeline answers to an ask that keeps its rules and isn't for a
/// stream is a lawful reply, as bytes, or, where a replay over no window is asked for, that it has come so far.
pub fn a_bootstrap_answers_lawfully()
    ensures { (ws : List Span) (b : Boot) (ask : Ask) → IsTimeline ws → IsBoot ws b → IsAsk ask → IsLimited ask → AsksBootstrap ask →
        IsLawfullyBooted ws b.high ask (boot_reply ws (test_in ask) b (question_of ask)) }
{}
