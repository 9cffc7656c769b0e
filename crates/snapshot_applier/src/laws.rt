ghost use Rattle.std.specs.Prelude.{List, ℕ, ◌≡◌, ◌≤◌, take, flat_map, codes};
ghost use Rattle.bus_types.specs.Window.{Span};
ghost use Rattle.bus_types.specs.Timeline.{IsTimeline, end_from, end_of, windows_between};
ghost use Rattle.bus_types.specs.Table.{rows_after, table};
ghost use Rattle.snapshot_applier.specs.declared.boot.BootMark.{BootMark};
ghost use Rattle.snapshot_applier.specs.BootMark.{IsBootMark, boot_mark_text};

/// A law of the rows: the source's table at an SCN, after the changes of the next windows of the timeline, however many, is
/// its table at the last of them.
pub fn applied_rows_are_the_table()
    ensures { (ws : List Span) (scn high most : ℕ) → IsTimeline ws → scn ≤ high → high ≤ end_of ws
        → (let next = take most (windows_between scn high ws) in rows_after (table ws scn) (flat_map (λ w. w.changes) next)
        ≡ table ws (end_from scn next)) }
{}

/// A law of boot marks: no text is the text of two, and the text of one, by computation from the definition alone.
pub fn a_boot_mark_has_one_text()
    ensures one { (m n : BootMark) → IsBootMark m → IsBootMark n → boot_mark_text m ≡ boot_mark_text n → m ≡ n }
    ensures worked { boot_mark_text (record { base = 10; applied = 30 }) ≡ codes "{\"applied\":30,\"base\":10}" }
{}
