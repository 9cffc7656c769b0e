ghost use Rattle.std.specs.Prelude.{◌≡◌, [], ◌∷◌, codes, Some, None};
ghost use Rattle.bus_types.specs.declared.change.Key.TheVariants.{Long};
ghost use Rattle.bus_types.specs.Relay.{new_relay};
ghost use Rattle.generated_windows.specs.Generated.{generated};
ghost use Rattle.relay_node.specs.Feeding.{text_gives, fed_from, fed, relay_after};
ghost use Rattle.relay_node.specs.Feeding.Given.{Windows, Bad};
ghost use Rattle.relay_node.specs.Feeding.Ending.{Finished, BadAt, TooLongAt, WrongAt};

/// What some inputs mean, by computation from the definitions alone.
pub fn worked_inputs()
    ensures empty { fed [] ≡ record { windows = []; ending = Finished } }
    ensures commits { fed (codes "# two\n\ncommit 5 0/1=aa\ncommit 9 0/1- 1/2=") ≡ record {
      windows = (record { scn = 5; prev = 0; changes = (record { source = 0; key = Long 1; put = Some (170 ∷ []) }) ∷ [] })
          ∷ (record {
            scn = 9;
            prev = 5;
            changes = (record { source = 0; key = Long 1; put = None })
                ∷ (record { source = 1; key = Long 2; put = Some [] }) ∷ [];
          }) ∷ [];
      ending = Finished;
    } }
    ensures generated { (fed (codes "gen 7 2\n")).windows ≡ generated 2 7 0 }
    ensures wrong_word { fed (codes "commit 5 0/1-\nfeed 1\ncommit\n") ≡ record {
      windows = (record { scn = 5; prev = 0; changes = (record { source = 0; key = Long 1; put = None }) ∷ [] }) ∷ [];
      ending = WrongAt 2;
    } }
    ensures room { (fed (codes "relay 1048576 1\n")).ending ≡ WrongAt 1 }
    ensures small_room { (fed (codes "relay 1 1\n")).ending ≡ BadAt 1 }
    ensures no_line { (fed (codes "#\n\ncommit\nfeed 1\n")).ending ≡ BadAt 3 }
    ensures not_rising { (fed (codes "commit 5 0/1-\ncommit 5 0/1-\n")).ending ≡ BadAt 2 }
    ensures no_scn { (fed (codes "commit 0 0/1-\n")).ending ≡ BadAt 1 }
    ensures last_window { text_gives 5 999999 (codes "commit 6 0/1-")
        ≡ Windows ((record { scn = 6; prev = 5; changes = (record { source = 0; key = Long 1; put = None }) ∷ [] }) ∷ []) }
    ensures one_too_many { text_gives 5 1000000 (codes "commit 6 0/1-") ≡ Bad }
    ensures two_too_many { text_gives 5 999999 (codes "gen 0 2") ≡ Bad }
    ensures too_high { text_gives 9223372036854475808 0 (codes "gen 0 1") ≡ Bad }
    ensures too_long { (fed_from 0 0 1000000 0 ((record { text = codes "feed 1"; size = 7 }) ∷ [])).ending ≡ TooLongAt 1000001 }
    ensures evicted { (relay_after (new_relay (record { bytes = 1048576; windows = 1 })) (fed (codes "commit 5 0/1-\ncommit 9 0/1-\n")).windows).floor ≡ 5 }
    ensures newest { (relay_after (new_relay (record { bytes = 1048576; windows = 1 })) (fed (codes "commit 5 0/1-\ncommit 9 0/1-\n")).windows).tail ≡ 9 }
{}
