ghost use Rattle.std.specs.Prelude.{◌≡◌, ◌∷◌, [], ◌++◌, true, false, codes, decimal, flat_map, Ok, Err, replicate};
ghost use Rattle.std.specs.List.{range_with_len};
ghost use Rattle.bus_types.specs.declared.change.Key.TheVariants.{Long};
ghost use Rattle.partition_filter.specs.Grammar.{filter_of};
ghost use Rattle.partition_filter.specs.Selection.{test_of};
ghost use Rattle.partition_filter.specs.Selection.Selection.{All, Rules};
ghost use Rattle.partition_filter.specs.Spelling.{filter_text};
ghost use Rattle.partition_filter.specs.declared.rule.Keys.TheVariants.{Every, Remainder, Quotient};

/// What some texts are read as, by computation from the definitions alone.
pub fn worked_filters()
    ensures all { filter_of (codes "all") ≡ Ok All }
    ensures every { filter_of (codes "0*") ≡ Ok (Rules ((record { source = 0; keys = Every }) ∷ [])) }
    ensures two { filter_of (codes "0%2:1;3*") ≡ Ok (Rules ((record { source = 0; keys = Remainder 2 (1 ∷ []) }) ∷ (record { source = 3; keys = Every }) ∷ [])) }
    ensures listed { filter_of (codes "65535/100:2,3") ≡ Ok (Rules ((record { source = 65535; keys = Quotient 100 (2 ∷ 3 ∷ []) }) ∷ [])) }
    ensures empty { filter_of (codes "") ≡ Err 0 }
    ensures source_again { filter_of (codes "0*;0*") ≡ Err 3 }
    ensures empty_end { filter_of (codes "0*;") ≡ Err 3 }
    ensures all_first { filter_of (codes "all;0*") ≡ Err 0 }
    ensures too_great { filter_of (codes "0%2:2") ≡ Err 0 }
    ensures listed_again { filter_of (codes "0%2:1,1") ≡ Err 0 }
    ensures by_none { filter_of (codes "0%0:0") ≡ Err 0 }
    ensures leading_zero { filter_of (codes "00*") ≡ Err 0 }
    ensures third { filter_of (codes "1*;2/7:0;3%2") ≡ Err 9 }
{}

/// What some filters accept, by computation from the definitions alone.
pub fn what_filters_mean()
    ensures all { test_of All 7 (Long 8) ≡ true }
    ensures none { test_of (Rules []) 7 (Long 8) ≡ false }
    ensures every { test_of (Rules ((record { source = 7; keys = Every }) ∷ [])) 7 (Long 8) ≡ true }
    ensures other_source { test_of (Rules ((record { source = 7; keys = Every }) ∷ [])) 8 (Long 8) ≡ false }
    ensures odd { test_of (Rules ((record { source = 0; keys = Remainder 2 (1 ∷ []) }) ∷ [])) 0 (Long 9) ≡ true }
    ensures even { test_of (Rules ((record { source = 0; keys = Remainder 2 (1 ∷ []) }) ∷ [])) 0 (Long 8) ≡ false }
    ensures below { test_of (Rules ((record { source = 0; keys = Quotient 100 (2 ∷ []) }) ∷ [])) 0 (Long 199) ≡ false }
    ensures first { test_of (Rules ((record { source = 0; keys = Quotient 100 (2 ∷ []) }) ∷ [])) 0 (Long 200) ≡ true }
    ensures last { test_of (Rules ((record { source = 0; keys = Quotient 100 (2 ∷ []) }) ∷ [])) 0 (Long 299) ≡ true }
    ensures above { test_of (Rules ((record { source = 0; keys = Quotient 100 (2 ∷ []) }) ∷ [])) 0 (Long 300) ≡ false }
{}

/// The limits of filters, by computation from the definitions alone: a text has at most 4,096 bytes, a filter at most 64
/// rules, a rule at most 64 numbers, a source is at most 65,535, and a remainder is by 1 to 65,536.
pub fn the_limits_of_filters()
    ensures long_text { filter_of (replicate 4096 32) ≡ Err 0 }
    ensures longer_text { filter_of (replicate 4097 32) ≡ Err 4096 }
    ensures more_rules { filter_of (codes "0*" ++ flat_map (λ source. codes ";" ++ decimal source ++ codes "*") (range_with_len 1 64)) ≡ Err 246 }
    ensures most_numbers { filter_of (codes "0/1:0" ++ flat_map (λ number. codes "," ++ decimal number) (range_with_len 1 63)) ≡ Ok (Rules ((record { source = 0; keys = Quotient 1 (range_with_len 0 64) }) ∷ [])) }
    ensures more_numbers { filter_of (codes "0/1:0" ++ flat_map (λ number. codes "," ++ decimal number) (range_with_len 1 64)) ≡ Err 0 }
    ensures last_source { filter_of (codes "65535*") ≡ Ok (Rules ((record { source = 65535; keys = Every }) ∷ [])) }
    ensures later_source { filter_of (codes "65536*") ≡ Err 0 }
    ensures most_remainder { filter_of (codes "0%65536:65535") ≡ Ok (Rules ((record { source = 0; keys = Remainder 65536 (65535 ∷ []) }) ∷ [])) }
    ensures more_remainder { filter_of (codes "0%65537:0") ≡ Err 0 }
    ensures most_quotient { filter_of (codes "0/18446744073709551615:18446744073709551615") ≡ Ok (Rules ((record { source = 0; keys = Quotient 18446744073709551615 (18446744073709551615 ∷ []) }) ∷ [])) }
    ensures more_quotient { filter_of (codes "0/18446744073709551616:0") ≡ Err 0 }
    ensures by_none { filter_of (codes "0/0:0") ≡ Err 0 }
{}
