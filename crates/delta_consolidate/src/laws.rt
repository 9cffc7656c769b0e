ghost use Rattle.std.specs.Prelude.{◌≡◌, ◌≤◌, ◌∷◌, [], ℕ, List, true, false, length};
ghost use Rattle.bus_types.specs.declared.change.Key.TheVariants.{Long};
ghost use Rattle.bus_types.specs.declared.row.Cursor.{Cursor};
ghost use Rattle.bus_types.specs.declared.row.Cursor.TheVariants.{Start, After};
ghost use Rattle.bus_types.specs.Change.{Test};
ghost use Rattle.bus_types.specs.Window.{Span};
ghost use Rattle.bus_types.specs.Timeline.{IsTimeline, windows_between};
ghost use Rattle.bus_types.specs.Latest.{last_changes};
ghost use Rattle.bus_types.specs.View.{everything};
ghost use Rattle.event_codec.specs.declared.answer.Answer.TheVariants.{TooSmall};
ghost use Rattle.event_codec.specs.Forms.{bytes_of};
ghost use Rattle.event_codec.specs.Questions.Reply.{Changes, Only};
ghost use Rattle.delta_consolidate.specs.Delta.{delta_chunk};
ghost use Rattle.delta_consolidate.specs.Leading.{AreLast, LeadTo};
ghost use Rattle.delta_consolidate.specs.Worked.{put, delete, moving, only_two};

/// A law of the last changes between two SCNs: they are in strictly rising order of name, a row has one exactly where it is
/// accepted and changes there, and it is the last of its changes there. In a timeline each of them puts what the table at the
/// upper SCN has of its row, and deletes it where the table has no such row.
pub fn last_changes_lead_to_the_table()
    ensures last { (ws : List Span) (test : Test) (low high : ℕ) → AreLast ws test low high (last_changes ws test low high) }
    ensures lead { (ws : List Span) (test : Test) (low high : ℕ) → IsTimeline ws → low ≤ high → LeadTo ws high (last_changes ws test low high) }
{}

/// A law of a log of a timeline: whatever it has before and behind two SCNs, its chunk of the last changes between them is
/// that of the whole timeline.
pub fn a_log_has_the_last_changes_of_its_timeline()
    ensures { (ws : List Span) (test : Test) (floor since target high most : ℕ) (cursor : Cursor) → floor ≤ since → target ≤ high
        → delta_chunk test since target cursor most (windows_between floor high ws) ≡ delta_chunk test since target cursor most ws }
{}

/// Worked chunks of last changes, by computation from the definitions alone.
pub fn worked_deltas()
    ensures first { delta_chunk everything 0 40 Start 57 moving ≡ Changes (put 1 177 ∷ delete 2 ∷ []) 40 true }
    ensures first_size { length (bytes_of (delta_chunk everything 0 40 Start 57 moving)) ≡ 57 }
    ensures second { delta_chunk everything 0 40 (After 0 (Long 2)) 1000 moving ≡ Changes (put 3 163 ∷ put 4 164 ∷ []) 40 false }
    ensures second_size { length (bytes_of (delta_chunk everything 0 40 (After 0 (Long 2)) 1000 moving)) ≡ 58 }
    ensures later { delta_chunk everything 10 30 Start 1000 moving ≡ Changes (put 1 177 ∷ delete 2 ∷ []) 30 false }
    ensures selected { delta_chunk only_two 0 20 Start 34 moving ≡ Changes (put 2 162 ∷ []) 20 false }
    ensures small { delta_chunk everything 20 30 Start 32 moving ≡ Only (TooSmall 33) }
    ensures none_left { delta_chunk everything 0 40 (After 0 (Long 4)) 9 moving ≡ Only (TooSmall 10) }
{}
