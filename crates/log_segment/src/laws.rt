ghost use Rattle.std.specs.Prelude.{◌≡◌, ℕ, List};
ghost use Rattle.bus_types.specs.Window.{Span};
ghost use Rattle.log_segment.specs.Image.{IsFree, HoldsInUse};
ghost use Rattle.log_segment.specs.Faults.{IsBadAt};

/// A law of the bytes of a segment: they are a segment that isn't in use, or one in use with one floor and one list of windows,
/// or at fault at one place, and never two of these.
pub fn a_segment_is_read_in_one_way()
    ensures windows { (bytes : List ℕ) (from other : ℕ) (ws vs : List Span) → HoldsInUse from ws bytes → HoldsInUse other vs bytes
        → (from ≡ other) × (ws ≡ vs) }
    ensures free { (bytes : List ℕ) (from : ℕ) (ws : List Span) → HoldsInUse from ws bytes → IsFree bytes → ⊥ }
    ensures good { (bytes : List ℕ) (from place : ℕ) (ws : List Span) → HoldsInUse from ws bytes → IsBadAt place bytes → ⊥ }
    ensures good_free { (bytes : List ℕ) (place : ℕ) → IsFree bytes → IsBadAt place bytes → ⊥ }
    ensures place { (bytes : List ℕ) (place other : ℕ) → IsBadAt place bytes → IsBadAt other bytes → place ≡ other }
{}
