ghost use Rattle.std.specs.Prelude.{List, ℕ, ◌≡◌, ◌↔◌, ◌<◌, ◌≤◌, ◌++◌, ◌∷◌, [], length, take, true, codes, decimal, Some, None};
ghost use Rattle.bus_types.specs.declared.limits.TheConstants.{MAX_SCN, MAX_PAYLOAD, MAX_CHANGES, MAX_WINDOW};
ghost use Rattle.bus_types.specs.Change.{Test};
ghost use Rattle.bus_types.specs.Fnv.{fnv1a_of};
ghost use Rattle.bus_types.specs.Text.{number_of};
ghost use Rattle.bus_types.specs.Lists.{listed_by, list_text};
ghost use Rattle.bus_types.specs.Window.{Span};
ghost use Rattle.bus_types.specs.Timeline.{Follows, IsTimeline, end_of, windows_between};
ghost use Rattle.bus_types.specs.Table.{table, HoldsLastPuts};
ghost use Rattle.bus_types.specs.Relay.{NotFound, stream, longest_run, IsLongestRun, Room, sizes, is_place, IsFloor, floor_of, evicted, Relay, new_relay, published, answer_of, StandsFor};

/// A law of the limits: each has this value.
pub fn the_limits_of_windows()
    ensures scn { MAX_SCN ≡ 9223372036854775807 }
    ensures payload { MAX_PAYLOAD ≡ 65536 }
    ensures changes { MAX_CHANGES ≡ 4096 }
    ensures window { MAX_WINDOW ≡ 1048576 }
{}

/// A law of the hash: of no bytes, of `a` and of `foobar` it is what its authors publish.
pub fn hashes_of_short_texts()
    ensures empty { fnv1a_of [] ≡ 0xcbf29ce484222325 }
    ensures letter { fnv1a_of (codes "a") ≡ 0xaf63dc4c8601ec8c }
    ensures word { fnv1a_of (codes "foobar") ≡ 0x85944171f73967e8 }
{}

/// A law of texts of several values: a list is spelled and read as these rows say, by computation from the definitions alone.
pub fn texts_of_short_lists()
    ensures list { list_text 44 decimal (1 ∷ 20 ∷ []) ≡ codes "1,20" }
    ensures listed { listed_by 44 (number_of 20) (codes "1,20") ≡ Some (1 ∷ 20 ∷ []) }
    ensures one_is_none { listed_by 44 (number_of 20) (codes "1,21") ≡ None }
    ensures empty { listed_by 44 (number_of 20) (codes "1,") ≡ None }
{}

/// A law of the table at an SCN: it is in strictly rising order of name, and a row is in it exactly where the
/// row's last change up to that SCN is a put, with that put's payload.
pub fn table_holds_last_puts()
    ensures { (windows : List Span) (scn : ℕ) → HoldsLastPuts windows scn (table windows scn) }
{}

/// A law of a relay's reply: its windows are the longest run from the first one on of at most that many windows
/// and bytes, and there is one such run only.
pub fn a_reply_is_the_longest_run()
    ensures { (count max : ℕ) (windows run : List Span) → IsLongestRun count max windows run ↔ (run ≡ longest_run count max windows) }
{}

/// A law of a relay's floor: behind it there is room for the windows up to the end, it is 0 or the SCN of a window,
/// and no lower one has room behind it. As windows are published, it never falls.
pub fn the_floor_is_the_least_place_with_room()
    ensures least { (room : Room) (ws : List Span) (end : ℕ) → IsTimeline ws → is_place end ws ≡ true → IsFloor room ws end (floor_of room ws end) }
    ensures rises { (room : Room) (ws : List Span) (a b : ℕ) → IsTimeline ws → is_place a ws ≡ true → is_place b ws ≡ true → a ≤ b
        → floor_of room ws a ≤ floor_of room ws b }
{}

/// A law of a relay's floor: after the first so many windows of a timeline were published, it is where the windows
/// end that were evicted to make room for the rest of them.
pub fn the_floor_is_where_windows_were_evicted()
    ensures { (room : Room) (ws : List Span) (count : ℕ) → IsTimeline ws
        → floor_of room ws (end_of (take count ws)) ≡ end_of (take (evicted room (sizes ws) count) ws) }
{}

/// A law of a relay over its whole life. A new relay stands for any timeline. One that stands for a timeline still
/// does after it published the timeline's next window, and after the source committed one more. What it answers is
/// the stream of the whole timeline between its floor and its newest window, and it is 'not found' exactly where a
/// window after the SCN asked was evicted.
pub fn a_relay_stands_for_its_timeline()
    ensures fresh { (ws : List Span) (room : Room) → IsTimeline ws → StandsFor ws (new_relay room) }
    ensures published { (ws : List Span) (r : Relay) (w : Span) → StandsFor ws r → windows_between r.tail w.scn ws ≡ w ∷ []
        → StandsFor ws (published r w) }
    ensures committed { (ws : List Span) (r : Relay) (w : Span) → StandsFor ws r → Follows (end_of ws) w → StandsFor (ws ++ w ∷ []) r }
    ensures answers { (ws : List Span) (r : Relay) (scn : ℕ) (test : Test) (max : ℕ) → StandsFor ws r
        → answer_of r scn test max ≡ stream ws r.floor r.tail scn test max }
    ensures evicted { (ws : List Span) (r : Relay) (scn n : ℕ) (test : Test) (max : ℕ) → StandsFor ws r
        → ((answer_of r scn test max ≡ NotFound n) ↔ ((n ≡ r.floor) × (0 < length (windows_between scn n ws)))) }
{}
