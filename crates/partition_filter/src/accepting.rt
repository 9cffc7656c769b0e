ghost use Rattle.std.specs.Prelude.{◌≡◌, ◌==◌, ◌&&◌, true, None, length, map, nat_lt, slice_index_or};
ghost use Rattle.std.specs.List.{list_any, AllByRecursion};
ghost use Rattle.bus_types.specs.declared.change.Key.{Key};
ghost use Rattle.partition_filter.specs.declared.rule.Rule.{Rule};
ghost use Rattle.partition_filter.specs.Selection.{accepts_key};
ghost use Rattle.partition_filter.specs.Rising.{rises};
ghost use Rattle.partition_filter.specs.Spelling.{IsKeys, IsRule};

use crate::rule::{Keys, Rule};
use bus_types::Key;

/// As many rules or numbers as are looked at one after another: for so few that is faster than a search by halves.
const FEW: usize = 8;

/// Whether one of the rules accepts the row: at most one is of its source.
#[inline(always)]
pub(crate) fn accepts(rules: &[Rule], source: u16, key: &Key) -> bool
    requires rising { rises None (map (λ r. r.source) rules.now) ≡ true }
    requires each { AllByRecursion IsRule rules.now }
    ensures { result ≡ list_any (λ r. r.source == source && accepts_key r.keys key.now) rules.now }
{
    if rules.len() <= FEW {
        accepts_in_order(rules, source, key)
    } else {
        accepts_by_halves(rules, source, key)
    }
}

/// As [`accepts`], by a look at one rule after another, up to that of the source.
#[tactic(auto, using(crate::proofs::Searches::rises_behind))]
fn accepts_in_order(rules: &[Rule], source: u16, key: &Key) -> bool
    requires rising { rises None (map (λ r. r.source) rules.now) ≡ true }
    requires each { AllByRecursion IsRule rules.now }
    ensures { result ≡ list_any (λ r. r.source == source && accepts_key r.keys key.now) rules.now }
{
    let Some((rule, others)) = rules.split_first() else {
        return false;
    };
    if rule.source == source {
        accepts_key(&rule.keys, key)
    } else {
        accepts_in_order(others, source, key)
    }
}

/// As [`accepts`], by a search for the rule of the source.
fn accepts_by_halves(rules: &[Rule], source: u16, key: &Key) -> bool
    requires rising { rises None (map (λ r. r.source) rules.now) ≡ true }
    requires each { AllByRecursion IsRule rules.now }
    ensures { result ≡ list_any (λ r. r.source == source && accepts_key r.keys key.now) rules.now }
{
    let place = place_of(rules, source);
    let Some(rule) = rules.get(place) else {
        return false;
    };
    rule.source == source && accepts_key(&rule.keys, key)
}

/// How many rules are of lower sources: the place of the rule of this one, where there is one.
fn place_of(rules: &[Rule], source: u16) -> usize
    requires { rises None (map (λ r. r.source) rules.now) ≡ true }
    ensures { (key : Key) (d : Rule) →
        list_any (λ r. r.source == source && accepts_key r.keys key) rules.now
        ≡ (nat_lt result (length rules.now) && ((slice_index_or rules.now result d).source == source && accepts_key
        (slice_index_or rules.now result d).keys key)) }
{
    rules.partition_point(|rule| rule.source < source)
}

#[inline(always)]
fn accepts_key(keys: &Keys, key: &Key) -> bool
    requires { IsKeys keys.now }
    ensures { result ≡ accepts_key keys.now key.now }
{
    let Key::Long(number) = *key;
    match keys {
        Keys::Every => true,
        Keys::Remainder { by, listed } => contains(listed.items(), number % u64::from(*by)),
        Keys::Quotient { by, listed } => contains(listed.items(), number / *by),
    }
}

#[inline(always)]
fn contains(numbers: &[u64], number: u64) -> bool
    requires { rises None numbers.now ≡ true }
    ensures { result ≡ list_any (λ b. b == number) numbers.now }
{
    if let [only] = numbers {
        *only == number
    } else if numbers.len() <= FEW {
        numbers.contains(&number)
    } else {
        contains_by_halves(numbers, number)
    }
}

fn contains_by_halves(numbers: &[u64], number: u64) -> bool
    requires { rises None numbers.now ≡ true }
    ensures { result ≡ list_any (λ b. b == number) numbers.now }
{
    numbers.binary_search(&number).is_ok()
}
