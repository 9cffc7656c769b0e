ghost use Rattle.std.specs.Prelude.{◌≡◌, [], ◌∷◌, Some, None, codes};
ghost use Rattle.bus_types.specs.declared.change.Key.TheVariants.{Long};
ghost use Rattle.bus_types.specs.declared.row.Cursor.TheVariants.{Start, After};
ghost use Rattle.bus_types.specs.Rows.{page_of};
ghost use Rattle.bus_stores.specs.Keeper.{moved, payload_of};
ghost use Rattle.bus_stores.specs.Worked.{one_row, one_put, one_clear, after_put};

/// What some commits mean, computed from the definitions alone: a put of 0/1=aa with the mark m on a new keeper, and
/// then a commit that clears the rows and sets the mark n.
pub fn worked_commits()
    ensures page { page_of Start 10 after_put.rows ≡ one_row }
    ensures behind { page_of (After 0 (Long 1)) 10 after_put.rows ≡ [] }
    ensures row { payload_of 0 (Long 1) after_put ≡ Some (170 ∷ []) }
    ensures no_row { payload_of 0 (Long 2) after_put ≡ None }
    ensures mark { after_put.mark ≡ Some (codes "m") }
    ensures cleared { moved one_clear after_put ≡ record { rows = []; mark = Some (codes "n") } }
{}
