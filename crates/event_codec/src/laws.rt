ghost use Rattle.std.specs.Prelude.{◌≡◌, ◌⊎◌, List, [], ℕ, ◌++◌, length};
ghost use Rattle.bus_types.specs.Window.{Span, IsSpan};
ghost use Rattle.event_codec.specs.Bytes.{Event, IsEvent, event_bytes, IsMark, mark_bytes, changes_bytes, window_bytes, StandsAt};
ghost use Rattle.event_codec.specs.Items.{Since, Front};
ghost use Rattle.event_codec.specs.Items.Front.{Unfinished, Refused};
ghost use Rattle.event_codec.specs.Streams.{IsReading, Behind};
ghost use Rattle.event_codec.specs.declared.answer.Answer.{Answer};
ghost use Rattle.event_codec.specs.Frames.{Closing, IsClosing, closing_bytes, IsAnswer, answer_bytes};

/// A law of the bytes of windows: none is a front of another's, so a stream of windows is read in one way only, and
/// each window has one spelling.
pub fn no_window_begins_another()
    ensures { (one other : Span) (rest : List ℕ) → IsSpan one → IsSpan other → window_bytes other ≡ window_bytes one ++ rest
        → (one ≡ other) × (rest ≡ []) }
{}

/// A law of the items of a reply: at a place stands one event at most or one mark at most, and never both, and each
/// closing frame and each answer has one spelling.
pub fn a_frame_is_read_in_one_way()
    ensures events { (bytes : List ℕ) (place next after : ℕ) (one other : Event) → IsEvent one → IsEvent other →
        StandsAt bytes place (event_bytes one) next → StandsAt bytes place (event_bytes other) after → (one ≡ other) × (next ≡ after) }
    ensures marks { (bytes : List ℕ) (place next after scn prev other before : ℕ) → IsMark scn prev → IsMark other before →
        StandsAt bytes place (mark_bytes scn prev) next → StandsAt bytes place (mark_bytes other before) after → (scn ≡ other) × (prev ≡ before) }
    ensures apart { (bytes : List ℕ) (place next after scn prev : ℕ) (event : Event) →
        StandsAt bytes place (event_bytes event) next → StandsAt bytes place (mark_bytes scn prev) after → ⊥ }
    ensures closings { (one other : Closing) → IsClosing one → IsClosing other → closing_bytes one ≡ closing_bytes other → one ≡ other }
    ensures answers { (one other : Answer) → IsAnswer one → IsAnswer other → answer_bytes one ≡ answer_bytes other → one ≡ other }
{}

/// A law of streams: bytes are read as windows and a rest in one way only, and the rest stops at one place, either at
/// an item that isn't whole yet or at a head that can't stand. So however a stream is cut into pieces, the same windows
/// are given, and it is bad at the same place or nowhere.
pub fn a_stream_is_read_in_one_way()
    ensures windows { (since : Since) (bytes : List ℕ) (ws vs : List Span) (rest other : List ℕ) →
        IsReading since bytes ws rest → IsReading since bytes vs other → (ws ≡ vs) × (rest ≡ other) }
    ensures place { (since : Since) (rest : List ℕ) (front other : Front) (one : Behind since rest front) (two : Behind since rest other) →
        (front ≡ Unfinished) ⊎ (front ≡ Refused) → (other ≡ Unfinished) ⊎ (other ≡ Refused) →
        (front ≡ other) × (length (changes_bytes one.scn one.changes) ≡ length (changes_bytes two.scn two.changes)) }
{}
