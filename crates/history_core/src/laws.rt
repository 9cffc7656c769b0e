ghost use Rattle.std.specs.Prelude.{ℕ, List};
ghost use Rattle.trace_script.specs.Input.{RawLine};
ghost use Rattle.history_core.specs.Script.{State};
ghost use Rattle.history_core.specs.Run.{played, AreForward, GoOn};

/// A law of scripts: whatever lines come, each consumer stays under its name and with its filter, and the SCN at which its
/// stored mark stands, or stood before it began to move, never falls. It is asked for marks that lead forward, as those of
/// a new bus and each that a reply sets do.
pub fn consumers_never_go_back()
    ensures kept { (s : State) (count used : ℕ) (lines : List RawLine) → AreForward s.consumers
        → GoOn s.consumers (played s count used lines).state.consumers }
    ensures forward { (s : State) (count used : ℕ) (lines : List RawLine) → AreForward s.consumers
        → AreForward (played s count used lines).state.consumers }
{}
