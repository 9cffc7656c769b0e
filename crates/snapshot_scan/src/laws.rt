ghost use Rattle.std.specs.Prelude.{◌≡◌, ℕ, List, ◌∷◌, [], true, false, length};
ghost use Rattle.bus_types.specs.declared.change.Key.TheVariants.{Long};
ghost use Rattle.bus_types.specs.declared.row.Cursor.{Cursor};
ghost use Rattle.bus_types.specs.declared.row.Cursor.TheVariants.{Start, After};
ghost use Rattle.bus_types.specs.Change.{Test};
ghost use Rattle.bus_types.specs.Rows.{rest_of};
ghost use Rattle.bus_types.specs.Table.{table};
ghost use Rattle.bus_types.specs.View.{everything, view};
ghost use Rattle.bus_types.specs.Window.{Span};
ghost use Rattle.event_codec.specs.Chunks.{chunk_of, puts_of};
ghost use Rattle.event_codec.specs.declared.answer.Answer.TheVariants.{TooSmall};
ghost use Rattle.event_codec.specs.Forms.{bytes_of};
ghost use Rattle.event_codec.specs.Questions.Reply.{Rows, Only};
ghost use Rattle.snapshot_scan.specs.Chunk.{scan_chunk};
ghost use Rattle.snapshot_scan.specs.Worked.{put, moving, only_two};

/// A law of a scan: where a keeper's rows are the table of windows at an SCN, the chunk is that of what the filter shows of it,
/// and at 0 that is no row.
pub fn a_scan_gives_the_view()
    ensures { (ws : List Span) (test : Test) (applied most : ℕ) (cursor : Cursor)
        → scan_chunk test applied cursor most (table ws applied)
        ≡ chunk_of (λ cs more. Rows cs applied more) most (puts_of (rest_of cursor (view test ws applied))) }
{}

/// Worked chunks of a table that moves on while it is scanned, by computation from the definitions alone.
pub fn worked_chunks()
    ensures first { scan_chunk everything 10 Start 34 (table moving 10) ≡ Rows (put 1 161 ∷ []) 10 true }
    ensures bytes { bytes_of (scan_chunk everything 10 Start 34 (table moving 10)) ≡ 1 ∷ 0 ∷ 0 ∷ 0 ∷ 0 ∷ 0 ∷ 0 ∷ 0 ∷ 0 ∷ 0 ∷ 10 ∷ 0 ∷ 0 ∷ 0 ∷ 0 ∷ 0 ∷ 0 ∷ 0 ∷ 1 ∷ 0 ∷ 0 ∷ 0 ∷ 1 ∷ 161 ∷ 4 ∷ 0 ∷ 0 ∷ 0 ∷ 0 ∷ 0 ∷ 0 ∷ 0 ∷ 10 ∷ 1 ∷ [] }
    ensures moved_on { scan_chunk everything 30 (After 0 (Long 1)) 1000 (table moving 30) ≡ Rows (put 3 163 ∷ []) 30 false }
    ensures whole { scan_chunk everything 40 Start 82 (table moving 40) ≡ Rows (put 1 177 ∷ put 3 163 ∷ put 4 164 ∷ []) 40 false }
    ensures whole_size { length (bytes_of (scan_chunk everything 40 Start 82 (table moving 40))) ≡ 82 }
    ensures one_less { scan_chunk everything 40 Start 81 (table moving 40) ≡ Rows (put 1 177 ∷ put 3 163 ∷ []) 40 true }
    ensures small { scan_chunk everything 10 (After 0 (Long 1)) 9 (table moving 10) ≡ Only (TooSmall 34) }
    ensures none_left { scan_chunk everything 10 (After 0 (Long 3)) 9 (table moving 10) ≡ Only (TooSmall 10) }
    ensures selected { scan_chunk only_two 10 Start 34 (table moving 10) ≡ Rows (put 2 162 ∷ []) 10 false }
    ensures nothing { scan_chunk everything 0 Start 1000 (table moving 10) ≡ Rows [] 0 false }
{}
