ghost use Rattle.std.specs.Prelude.{◌≡◌, ◌==◌, ◌+◌, ◌≤◌, ◌<◌, if◌then◌else◌, Option, Some, None, OnSome, is_some, length, option_map};
ghost use Rattle.std.specs.List.{slice_split};
ghost use Rattle.partition_filter.specs.declared.rule.Keys.{Keys};
ghost use Rattle.partition_filter.specs.Grammar.{listed_of, remainder_of, quotient_of, rule_from, rule_of, next_rule, rules_of};
ghost use Rattle.partition_filter.specs.Faults.{fault_of, next_number, listed_behind};

use crate::reading::{MAX_NUMBERS, MAX_REMAINDER, MAX_RULES, divisor, every, is_above};
use bus_types::{cut_text, read_number};

/// The place of the first rule at fault in a text, where there is one. It takes no memory, so a bad filter is told from
/// want of memory.
pub(crate) fn first_fault(text: &[u8]) -> Option<u64>
    requires { length text.now ≤ 4096 }
    ensures { result ≡ fault_of (rules_of 0 0 None (slice_split (λ b. b == 59) text.now)) }
{
    fault_from(0, 0, None, text)
}

/// The place of the first rule at fault in what is left of a text from a place on, behind so many rules, of which the last
/// has the source before.
fn fault_from(place: u64, count: usize, before: Option<u64>, text: &[u8]) -> Option<u64>
    requires places { place + length text.now ≤ 4096 }
    requires few { count ≤ 64 }
    ensures { result ≡ fault_of (rules_of place count before (slice_split (λ b. b == 59) text.now)) }
{
    let Some((part, behind)) = cut_text(b';', text) else {
        return last_fault(place, next_source(count, before, text));
    };
    let Some(source) = next_source(count, before, part) else {
        return Some(place);
    };
    fault_from(
        place + part.len() as u64 + 1,
        count + 1,
        Some(source),
        behind,
    )
}

/// The place, where no rule stands there.
fn last_fault(place: u64, source: Option<u64>) -> Option<u64>
    ensures { result ≡ (if is_some source then None else Some place) }
{
    match source {
        Some(_) => None,
        None => Some(place),
    }
}

/// The source of a rule behind so many rules, of which the last has the source before.
#[tactic(auto, using(crate::proofs::FaultTexts::next_known))]
fn next_source(count: usize, before: Option<u64>, text: &[u8]) -> Option<u64>
    ensures value { result ≡ option_map (λ r. r.source) (next_rule count before text.now) }
    ensures few { OnSome result (count < 64) }
{
    let source = rule_source(text)?;
    if count < MAX_RULES && is_above(before, source) {
        Some(source)
    } else {
        None
    }
}

/// The source of the rule that a text spells.
#[tactic(auto, unfolding(crate::specs::Grammar::rule_of, crate::specs::Grammar::rule_by))]
fn rule_source(text: &[u8]) -> Option<u64>
    ensures { result ≡ option_map (λ r. r.source) (rule_of text.now) }
{
    if let Some((source, keys)) = cut_text(b'%', text) {
        return source_before(source, is_remainder(keys));
    }
    if let Some((source, keys)) = cut_text(b'/', text) {
        return source_before(source, is_quotient(keys));
    }
    let (source, keys) = cut_text(b'*', text)?;
    source_before(source, every(keys).is_some())
}

/// The source that a text spells, where keys stand behind it.
fn source_before(text: &[u8], has_keys: bool) -> Option<u64>
    ensures { (keys : Option Keys) → has_keys ≡ is_some keys → result ≡ option_map (λ r. r.source) (rule_from text.now keys) }
{
    if has_keys {
        read_number(text, 65535)
    } else {
        None
    }
}

/// Whether the text is `N:B,B`, as behind `%`.
#[tactic(auto, using(crate::proofs::FaultTexts::some_made), unfolding(crate::specs::Grammar::remainder_of))]
fn is_remainder(text: &[u8]) -> bool
    ensures { result ≡ is_some (remainder_of text.now) }
{
    let Some((by, listed)) = cut_text(b':', text) else {
        return false;
    };
    let Some(by) = divisor(MAX_REMAINDER, by) else {
        return false;
    };
    is_listed(by - 1, listed)
}

/// Whether the text is `R:B,B`, as behind `/`.
#[tactic(auto, using(crate::proofs::FaultTexts::some_made), unfolding(crate::specs::Grammar::quotient_of))]
fn is_quotient(text: &[u8]) -> bool
    ensures { result ≡ is_some (quotient_of text.now) }
{
    let Some((by, listed)) = cut_text(b':', text) else {
        return false;
    };
    let Some(_) = divisor(u64::MAX, by) else {
        return false;
    };
    is_listed(u64::MAX, listed)
}

/// Whether the text is `B,B`, each at most `max`.
#[tactic(auto, using(crate::proofs::FaultTexts::listed_first))]
fn is_listed(max: u64, text: &[u8]) -> bool
    ensures { result ≡ is_some (listed_of max text.now) }
{
    is_listed_behind(max, 0, None, text)
}

/// Whether the text lists numbers that may stand behind so many numbers, of which the last is the one before.
fn is_listed_behind(max: u64, count: usize, before: Option<u64>, text: &[u8]) -> bool
    requires { count ≤ 64 }
    ensures { result ≡ is_some (listed_behind max count before (slice_split (λ b. b == 44) text.now)) }
{
    let Some((part, behind)) = cut_text(b',', text) else {
        return next_number(max, count, before, text).is_some();
    };
    let Some(number) = next_number(max, count, before, part) else {
        return false;
    };
    is_listed_behind(max, count + 1, Some(number), behind)
}

/// The number of a text behind so many numbers, of which the last is the one before.
#[tactic(auto, unfolding(crate::specs::Faults::next_number))]
fn next_number(max: u64, count: usize, before: Option<u64>, text: &[u8]) -> Option<u64>
    ensures value { result ≡ next_number max count before text.now }
    ensures few { OnSome result (count < 64) }
{
    let number = read_number(text, max)?;
    if count < MAX_NUMBERS && is_above(before, number) {
        Some(number)
    } else {
        None
    }
}
