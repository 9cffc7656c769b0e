ghost use Rattle.std.specs.Prelude.{◌≡◌, ℕ, List};
ghost use Rattle.bus_types.specs.Window.{Span};
ghost use Rattle.log_store.specs.Log.{HoldLog, AreBadAt};

/// A law of the bytes of disks: they are one log, with one floor, one high and one list of windows, or a segment of them is at
/// fault at one place, and never both.
pub fn a_log_is_read_in_one_way()
    ensures log { (images : List (List ℕ)) (low high low2 high2 : ℕ) (ws vs : List Span) → HoldLog low high ws images
        → HoldLog low2 high2 vs images → (low ≡ low2) × (high ≡ high2) × (ws ≡ vs) }
    ensures good { (images : List (List ℕ)) (low high segment place : ℕ) (ws : List Span) → HoldLog low high ws images
        → AreBadAt segment place images → ⊥ }
    ensures place { (images : List (List ℕ)) (segment place segment2 place2 : ℕ) → AreBadAt segment place images
        → AreBadAt segment2 place2 images → (segment ≡ segment2) × (place ≡ place2) }
{}
