ghost use Rattle.std.specs.Prelude.{◌≡◌, ℕ, ◌+◌, ◌<◌, ◌≤◌, List, [], ◌∷◌, length, flat_map, Option, Some};
ghost use Rattle.std.specs.List.{slice_get};
ghost use Rattle.bus_types.specs.Change.{Test};
ghost use Rattle.bus_types.specs.Window.{Span};
ghost use Rattle.bus_types.specs.Timeline.{IsTimeline};
ghost use Rattle.bus_types.specs.Cut.{cut, cuts};
ghost use Rattle.bus_types.specs.Relay.{NotFound, Empty, stream, fitting};
ghost use Rattle.event_codec.specs.Bytes.{window_bytes};
ghost use Rattle.event_codec.specs.Parsing.{AreWindows};
ghost use Rattle.ring_cells.specs.Entries.{Held};
ghost use Rattle.range_ring.specs.Answering.{scn_before, windows_from, answer_at, IsNext};
ghost use Rattle.range_ring.specs.Ranges.{HoldAll};
ghost use Rattle.range_ring.specs.Parts.{bytes_at, PartIs, AreParts};

/// A law of what a ring answers at the numbers of windows that were evicted and published. The answer is that of the
/// windows between these two positions alone. The SCN before a position is the `prev` of the window there. Who asks below
/// it for the first of them gets 'not found', who asks at the newest one or above it 'empty', and else the window whose
/// `prev` isn't above the SCN asked, and whose SCN is, is the first of those that are answered.
pub fn a_ring_answers_by_positions()
    ensures alone { (ws : List Span) (evicted published scn : ℕ) (test : Test) (max : ℕ) → IsTimeline ws → evicted ≤ published → published ≤ length ws →
        answer_at ws evicted published scn test max ≡ stream (windows_from ws evicted published) (scn_before ws evicted) (scn_before ws published) scn test max }
    ensures before { (ws : List Span) (position : ℕ) (w : Span) → IsTimeline ws → slice_get ws position ≡ Some w → scn_before ws position ≡ w.prev }
    ensures past { (ws : List Span) (position : ℕ) (w : Span) → IsTimeline ws → slice_get ws position ≡ Some w → scn_before ws (position + 1) ≡ w.scn }
    ensures not_found { (ws : List Span) (evicted published scn : ℕ) (test : Test) (max : ℕ) → scn < scn_before ws evicted → answer_at ws evicted published scn test max ≡ NotFound (scn_before ws evicted) }
    ensures empty { (ws : List Span) (evicted published scn : ℕ) (test : Test) (max : ℕ) → scn_before ws evicted ≤ scn → scn_before ws published ≤ scn → answer_at ws evicted published scn test max ≡ Empty (scn_before ws published) }
    ensures next { (ws : List Span) (evicted published scn position : ℕ) (w : Span) (test : Test) (max : ℕ) → IsTimeline ws → published ≤ length ws → IsNext ws evicted published scn position w →
        answer_at ws evicted published scn test max ≡ fitting max (cuts test (windows_from ws position published)) }
{}

/// A law of what a range lends. Its entries hold as many windows; the bytes that are lent at a place are those of the
/// window there, whose items are all left at their beginning; and the parts that come from there on, until none is left,
/// are together what the filter leaves of the window.
pub fn a_range_lends_its_windows()
    ensures count { (told : Option (List Span)) (position : ℕ) (es : List Held) (ws : List Span) → HoldAll told position es ws → length es ≡ length ws }
    ensures bytes { (told : Option (List Span)) (position place : ℕ) (es : List Held) (ws : List Span) (w : Span) → HoldAll told position es ws → slice_get ws place ≡ Some w → bytes_at es place ≡ window_bytes w }
    ensures items { (told : Option (List Span)) (position place : ℕ) (es : List Held) (ws : List Span) (w : Span) → HoldAll told position es ws → slice_get ws place ≡ Some w → AreWindows (w ∷ []) (bytes_at es place) }
    ensures parts { (test : Test) (whole : List ℕ) (w : Span) (parts : List PartIs) → AreParts test whole (w ∷ []) parts → flat_map (λ p. p.bytes) parts ≡ window_bytes (cut test w) }
{}
