ghost use Rattle.std.specs.Prelude.{◌≡◌, codes};
ghost use Rattle.bus_types.specs.declared.change.Key.{Key};
ghost use Rattle.bus_types.specs.declared.row.Cursor.{Cursor};
ghost use Rattle.checkpoint.specs.declared.mark.Mark.{Mark};
ghost use Rattle.checkpoint.specs.Mark.{IsMark, mark_text};

/// A law of marks: no text is the text of two marks.
pub fn a_mark_has_one_text()
    ensures { (m n : Mark) → IsMark m → IsMark n → mark_text m ≡ mark_text n → m ≡ n }
{}

/// The texts of some marks, by computation from the definitions alone.
pub fn worked_texts()
    ensures online { mark_text (Mark.Online 10) ≡ codes "{\"mode\":\"online\",\"scn\":10}" }
    ensures delta { mark_text (Mark.Delta 0 40 Cursor.Start)
        ≡ codes "{\"cursor\":\"start\",\"mode\":\"delta\",\"since\":0,\"target\":40}" }
    ensures snapshot { mark_text (Mark.Snapshot 0 10 10 (Cursor.After 0 (Key.Long 1)))
        ≡ codes "{\"cursor\":\"0/1\",\"mode\":\"snapshot\",\"since\":0,\"start\":10,\"top\":10}" }
    ensures scanned { mark_text (Mark.Scanned 0 10 30)
        ≡ codes "{\"mode\":\"scanned\",\"since\":0,\"start\":10,\"top\":30}" }
    ensures catchup { mark_text (Mark.Catchup 0 10 40 10)
        ≡ codes "{\"at\":10,\"mode\":\"catchup\",\"since\":0,\"start\":10,\"target\":40}" }
{}
