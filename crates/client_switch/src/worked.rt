ghost use Rattle.std.specs.Prelude.{◌≡◌, ℕ, List, ◌∷◌, [], true, false, Some, None};
ghost use Rattle.bus_types.specs.declared.change.Change.{Change};
ghost use Rattle.bus_types.specs.declared.change.Key.TheVariants.{Long};
ghost use Rattle.bus_types.specs.declared.row.Cursor.TheVariants.{Start as Beginning, After};
ghost use Rattle.bus_types.specs.Window.{Span};
ghost use Rattle.bus_types.specs.View.{everything};
ghost use Rattle.event_codec.specs.declared.answer.Answer.TheVariants.{NotFound, TooSmall, Behind, StartDelta, StartSnapshot, Target as GoTo};
ghost use Rattle.checkpoint.specs.declared.mark.Mark.TheVariants.{Online, Delta as Catching, Snapshot, Scanned, Catchup as Replaying};
ghost use Rattle.event_codec.specs.Questions.{Stream, Start, Target, Windows, Rows, Changes, Only};
ghost use Rattle.client_switch.specs.Moves.{NoWish, StartWish, question, turn};
ghost use Rattle.event_codec.specs.Chunks.{chunk_of};
ghost use Rattle.bus_wire.specs.True.{Boot, boot_reply};
ghost use Rattle.client_switch.specs.Worked.{put, gone, window};

/// What a client asks, and what some replies make of it, by computation from the definitions alone.
pub fn worked_moves()
    ensures asks_stream { question (Online 10) NoWish 1000 ≡ Stream 10 1000 }
    ensures asks_target { (most : ℕ) → question (Scanned 5 10 30) NoWish most ≡ Target 10 30 }
    ensures follows { turn (Online 0) (Windows (window 10 0 (put 1 ∷ put 2 ∷ []) ∷ window 20 10 (gone 1 ∷ []) ∷ []))
        ≡ record { mark = Online 20; commits = true; clear = false; batch = put 1 ∷ put 2 ∷ gone 1 ∷ []; wish = NoWish } }
    ensures evicted { turn (Online 0) (Only (NotFound 30))
        ≡ record { mark = Online 0; commits = false; clear = false; batch = []; wish = StartWish } }
    ensures begins_delta { turn (Online 0) (Only (StartDelta 40))
        ≡ record { mark = Catching 0 40 Beginning; commits = true; clear = false; batch = []; wish = NoWish } }
    ensures begins_snapshot { turn (Online 0) (Only (StartSnapshot 10))
        ≡ record { mark = Snapshot 0 10 10 Beginning; commits = true; clear = true; batch = []; wish = NoWish } }
    ensures rows_and_more { turn (Snapshot 0 10 10 Beginning) (Rows (put 1 ∷ put 2 ∷ []) 20 true)
        ≡ record { mark = Snapshot 0 10 20 (After 0 (Long 2)); commits = true; clear = false; batch = put 1 ∷ put 2 ∷ []; wish = NoWish } }
    ensures last_rows { turn (Snapshot 0 10 20 (After 0 (Long 2))) (Rows (put 3 ∷ []) 10 false)
        ≡ record { mark = Scanned 0 10 20; commits = true; clear = false; batch = put 3 ∷ []; wish = NoWish } }
    ensures changes_and_more { turn (Catching 0 40 Beginning) (Changes (gone 1 ∷ []) 40 true)
        ≡ record { mark = Catching 0 40 (After 0 (Long 1)); commits = true; clear = false; batch = gone 1 ∷ []; wish = NoWish } }
    ensures last_changes { turn (Catching 0 40 (After 0 (Long 1))) (Changes (put 2 ∷ []) 40 false)
        ≡ record { mark = Online 40; commits = true; clear = false; batch = put 2 ∷ []; wish = NoWish } }
    ensures nothing_to_replay { turn (Scanned 0 10 10) (Only (GoTo 10))
        ≡ record { mark = Online 10; commits = true; clear = false; batch = []; wish = NoWish } }
    ensures begins_replay { turn (Scanned 0 10 20) (Only (GoTo 40))
        ≡ record { mark = Replaying 0 10 40 10; commits = true; clear = false; batch = []; wish = NoWish } }
    ensures replays { turn (Replaying 0 10 40 10) (Windows (window 20 10 (put 1 ∷ []) ∷ []))
        ≡ record { mark = Replaying 0 10 40 20; commits = true; clear = false; batch = put 1 ∷ []; wish = NoWish } }
    ensures ends_replay { turn (Replaying 0 10 40 20) (Windows (window 30 20 (put 1 ∷ []) ∷ window 40 30 (put 2 ∷ []) ∷ []))
        ≡ record { mark = Online 40; commits = true; clear = false; batch = put 1 ∷ put 2 ∷ []; wish = NoWish } }
    ensures log_gone { (ws : List Span) → boot_reply ws everything (record { base = 10; applied = 10; high = 40 }) (Start 0 false)
        ≡ Only (StartSnapshot 10) }
    ensures log_there { (ws : List Span) → boot_reply ws everything (record { base = 0; applied = 10; high = 40 }) (Start 0 false)
        ≡ Only (StartDelta 40) }
    ensures behind { (ws : List Span) → boot_reply ws everything (record { base = 0; applied = 10; high = 40 }) (Start 40 false) ≡ Only (Behind 40) }
    ensures chunk { chunk_of (λ rows more. Rows rows 10 more) 34 (put 1 ∷ put 2 ∷ []) ≡ Rows (put 1 ∷ []) 10 true }
    ensures whole_chunk { chunk_of (λ rows more. Rows rows 10 more) 58 (put 1 ∷ put 2 ∷ []) ≡ Rows (put 1 ∷ put 2 ∷ []) 10 false }
    ensures small_chunk { chunk_of (λ rows more. Rows rows 10 more) 9 (put 1 ∷ put 2 ∷ []) ≡ Only (TooSmall 34) }
    ensures no_chunk { chunk_of (λ rows more. Rows rows 10 more) 9 [] ≡ Only (TooSmall 10) }
{}
