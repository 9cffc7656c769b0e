ghost use Rattle.std.specs.Prelude.{◌≡◌, ℕ, List, Some, None, true, false, is_some, [], ◌∷◌, codes};
ghost use Rattle.partition_filter.specs.Selection.Selection.{All, Rules};
ghost use Rattle.partition_filter.specs.declared.rule.Keys.TheVariants.{Remainder};
ghost use Rattle.trace_script.specs.Words.{words_of};
ghost use Rattle.bus_node.specs.declared.words.NodeWords.TheVariants.{Relay, Bootstrap, Consume};
ghost use Rattle.bus_node.specs.Words.{node_words, is_plain};

/// What some words start, by computation from their definition alone. The words stand with one space between two.
pub fn worked_words()
    ensures relay { node_words (words_of (codes "relay --port 7001 --bytes 1048576 --windows 16 --connections 3"))
        ≡ Some (Relay (record { port = 7001; bytes = 1048576; windows = 16; connections = 3 })) }
    ensures relay_turned { node_words (words_of (codes "relay --connections 1000000 --windows 65536 --bytes 268435456 --port 65535"))
        ≡ Some (Relay (record { port = 65535; bytes = 268435456; windows = 65536; connections = 1000000 })) }
    ensures bootstrap { node_words (words_of (codes "bootstrap --port 7002 --relay 7001 --rounds 5 --connections 2"))
        ≡ Some (Bootstrap (record { port = 7002; relay = 7001; rounds = 5; connections = 2 })) }
    ensures bootstrap_turned { node_words (words_of (codes "bootstrap --rounds 5 --connections 2 --relay 1 --port 7002"))
        ≡ Some (Bootstrap (record { port = 7002; relay = 1; rounds = 5; connections = 2 })) }
    ensures consume { node_words (words_of (codes "consume --name c_1 --filter all --relay 7001 --bootstrap 7002 --polls 9 --max 1"))
        ≡ Some (Consume (record { name = codes "c_1"; filter = All; relay = 7001; bootstrap = 7002; polls = 9; max = 1 })) }
    ensures consume_turned { node_words (words_of (codes "consume --max 16777216 --polls 1000000 --bootstrap 1 --relay 65535 --filter 1%4:2 --name a"))
        ≡ Some (Consume (record { name = codes "a"; filter = Rules ((record { source = 1; keys = Remainder 4 (2 ∷ []) }) ∷ []); relay = 65535; bootstrap = 1; polls = 1000000; max = 16777216 })) }
    ensures missing { node_words (words_of (codes "relay --port 7001 --bytes 1048576 --windows 16")) ≡ None }
    ensures repeated { node_words (words_of (codes "relay --port 7001 --bytes 1048576 --windows 16 --port 7001")) ≡ None }
    ensures repeated_too { node_words (words_of (codes "relay --port 7001 --bytes 1048576 --windows 16 --connections 3 --port 7001")) ≡ None }
    ensures unknown { node_words (words_of (codes "relay --port 7001 --bytes 1048576 --windows 16 --polls 3")) ≡ None }
    ensures joined { node_words (words_of (codes "relay --port=7001 --bytes 1048576 --windows 16 --connections 3")) ≡ None }
    ensures no_value { node_words (words_of (codes "relay --bytes 1048576 --windows 16 --connections 3 --port")) ≡ None }
    ensures short_name { node_words (words_of (codes "relay -port 7001 --bytes 1048576 --windows 16 --connections 3")) ≡ None }
    ensures port_0 { node_words (words_of (codes "relay --port 0 --bytes 1048576 --windows 16 --connections 3")) ≡ None }
    ensures port_65536 { node_words (words_of (codes "relay --port 65536 --bytes 1048576 --windows 16 --connections 3")) ≡ None }
    ensures leading_zero { node_words (words_of (codes "relay --port 07001 --bytes 1048576 --windows 16 --connections 3")) ≡ None }
    ensures less_bytes { node_words (words_of (codes "relay --port 7001 --bytes 1048575 --windows 16 --connections 3")) ≡ None }
    ensures more_windows { node_words (words_of (codes "relay --port 7001 --bytes 1048576 --windows 65537 --connections 3")) ≡ None }
    ensures more_connections { node_words (words_of (codes "relay --port 7001 --bytes 1048576 --windows 16 --connections 1000001")) ≡ None }
    ensures no_rounds { node_words (words_of (codes "bootstrap --port 7002 --relay 7001 --rounds 0 --connections 2")) ≡ None }
    ensures no_polls { node_words (words_of (codes "consume --name c --filter all --relay 7001 --bootstrap 7002 --polls 0 --max 1")) ≡ None }
    ensures no_max { node_words (words_of (codes "consume --name c --filter all --relay 7001 --bootstrap 7002 --polls 9 --max 0")) ≡ None }
    ensures more_max { node_words (words_of (codes "consume --name c --filter all --relay 7001 --bootstrap 7002 --polls 9 --max 16777217")) ≡ None }
    ensures bad_name { node_words (words_of (codes "consume --name C --filter all --relay 7001 --bootstrap 7002 --polls 9 --max 1")) ≡ None }
    ensures bad_filter { node_words (words_of (codes "consume --name c --filter al --relay 7001 --bootstrap 7002 --polls 9 --max 1")) ≡ None }
    ensures no_words { node_words [] ≡ None }
    ensures empty_word { node_words ([] ∷ []) ≡ None }
    ensures alone { node_words (codes "relay" ∷ []) ≡ None }
    ensures other_node { node_words (words_of (codes "relays --port 7001 --bytes 1048576 --windows 16 --connections 3")) ≡ None }
{}

/// Which words are of the plain form: all that start a node; and some others, by computation from the definition alone.
pub fn plain_words()
    ensures start { (words : List (List ℕ)) → is_some (node_words words) ≡ true → is_plain words ≡ true }
    ensures out_of_range { is_plain (words_of (codes "relay --port 0 --bytes 1 --windows 65537 --connections x")) ≡ true }
    ensures turned { is_plain (words_of (codes "bootstrap --connections 0 --rounds 0 --relay 0 --port 0")) ≡ true }
    ensures no_names { is_plain (words_of (codes "consume --max 0 --polls 0 --bootstrap 0 --relay 0 --filter al --name C")) ≡ true }
    ensures missing { is_plain (words_of (codes "relay --port 7001 --bytes 1048576 --windows 16")) ≡ false }
    ensures repeated { is_plain (words_of (codes "relay --port 7001 --bytes 1048576 --windows 16 --port 7001")) ≡ false }
    ensures unknown { is_plain (words_of (codes "relay --port 7001 --bytes 1048576 --windows 16 --polls 3")) ≡ false }
    ensures joined { is_plain (words_of (codes "relay --port=7001 --bytes 1048576 --windows 16 --connections 3")) ≡ false }
    ensures negative { is_plain (words_of (codes "relay --port -1 --bytes 1048576 --windows 16 --connections 3")) ≡ false }
    ensures other_node { is_plain (words_of (codes "relays --port 7001 --bytes 1048576 --windows 16 --connections 3")) ≡ false }
    ensures no_words { is_plain [] ≡ false }
{}
