ghost use Rattle.std.specs.Prelude.{◌≡◌, ◌==◌, ◌≤◌, None, IfOk, IfSome, length, map, option_map};
ghost use Rattle.std.specs.List.{slice_split};
ghost use Rattle.partition_filter.specs.Grammar.{numbers_of, listed_of, divisor_of, remainder_of, quotient_of, every_of, rule_from, rule_of, next_rule, rules_of};
ghost use Rattle.partition_filter.specs.Reading.{ReadsAs, Finds};
ghost use Rattle.partition_filter.specs.Rising.{is_above, rises};
ghost use Rattle.partition_filter.specs.Spelling.{AreRules};

use crate::fault::FilterFault;
use crate::rule::{Keys, Numbers, Rule};
use bus_types::{NoMemory, cut_text, read_number};
use std::alloc::{AllocError, Global};

/// The most rules of a filter.
pub(crate) const MAX_RULES: usize = 64;

/// The most numbers of a rule.
pub(crate) const MAX_NUMBERS: usize = 64;

/// The most that a remainder is by.
pub(crate) const MAX_REMAINDER: u64 = 65_536;

/// The rules that the text spells.
pub(crate) fn rules(alloc: Global, text: &[u8]) -> Result<Vec<Rule>, FilterFault>
    requires { length text.now ≤ 4096 }
    ensures exact { ReadsAs (λ rules. rules.items) result (rules_of 0 0 None (slice_split (λ b. b == 59) text.now)) }
    ensures valid { IfOk result (λ rules. AreRules rules.items) }
{
    let texts = parts(alloc, b';', text)?;
    let mut rules = Vec::new(alloc);
    let mut before = None;
    let mut place = 0;
    for part in &texts {
        let rule = rule_at(alloc, place, rules.len(), before, part)?;
        before = Some(u64::from(rule.source));
        place += part.len() as u64 + 1;
        rules.push(rule)?;
    }
    Ok(rules)
}

/// The parts of the text between such bytes.
fn parts(alloc: Global, byte: u8, text: &[u8]) -> Result<Vec<&[u8]>, AllocError>
    ensures { IfOk result (λ parts. map (λ part. part.now) parts.items ≡ slice_split (λ b. b == byte) text.now) }
{
    text.split(|b| *b == byte).collect(alloc)
}

/// The rule of the text at this place, behind so many rules, of which the last has this source.
fn rule_at(
    alloc: Global,
    place: u64,
    count: usize,
    before: Option<u64>,
    text: &[u8],
) -> Result<Rule, FilterFault>
    ensures { Finds place result (next_rule count before text.now) }
{
    let rule = next_rule(alloc, count, before, text)?;
    rule.ok_or(FilterFault::BadFilter { place })
}

#[tactic(auto, unfolding(crate::specs::Grammar::next_rule))]
fn next_rule(
    alloc: Global,
    count: usize,
    before: Option<u64>,
    text: &[u8],
) -> Result<Option<Rule>, NoMemory>
    ensures { IfOk result (λ rule. rule ≡ next_rule count before text.now) }
{
    let Some(rule) = rule(alloc, text)? else {
        return Ok(None);
    };
    if count < MAX_RULES && is_above(before, u64::from(rule.source)) {
        Ok(Some(rule))
    } else {
        Ok(None)
    }
}

/// Whether the number is above the one before it, where there is one.
pub(crate) fn is_above(before: Option<u64>, number: u64) -> bool
    ensures { result ≡ is_above before number }
{
    match before {
        None => true,
        Some(before) => before < number,
    }
}

/// The rule that the text spells: `S*`, `S%N:B,B` or `S/R:B,B`.
#[tactic(auto, unfolding(crate::specs::Grammar::rule_of, crate::specs::Grammar::rule_by))]
fn rule(alloc: Global, text: &[u8]) -> Result<Option<Rule>, NoMemory>
    ensures { IfOk result (λ rule. rule ≡ rule_of text.now) }
{
    if let Some((source, keys)) = cut_text(b'%', text) {
        let keys = remainder(alloc, keys)?;
        return Ok(rule_from(source, keys));
    }
    if let Some((source, keys)) = cut_text(b'/', text) {
        let keys = quotient(alloc, keys)?;
        return Ok(rule_from(source, keys));
    }
    let Some((source, keys)) = cut_text(b'*', text) else {
        return Ok(None);
    };
    Ok(rule_from(source, every(keys)))
}

/// The rule of a source and its keys, where both are read.
#[tactic(auto, unfolding(crate::specs::Grammar::rule_from))]
fn rule_from(text: &[u8], keys: Option<Keys>) -> Option<Rule>
    ensures { result ≡ rule_from text.now keys }
{
    let source = read_number(text, 65535)?;
    let keys = keys?;
    Some(Rule {
        source: source as u16,
        keys,
    })
}

/// `N:B,B`
#[tactic(auto, unfolding(crate::specs::Grammar::remainder_of))]
fn remainder(alloc: Global, text: &[u8]) -> Result<Option<Keys>, NoMemory>
    ensures { IfOk result (λ keys. keys ≡ remainder_of text.now) }
{
    let Some((by, listed)) = cut_text(b':', text) else {
        return Ok(None);
    };
    let Some(by) = divisor(MAX_REMAINDER, by) else {
        return Ok(None);
    };
    let Some(listed) = numbers(alloc, by - 1, listed)? else {
        return Ok(None);
    };
    Ok(Some(Keys::Remainder {
        by: by as u32,
        listed,
    }))
}

/// `R:B,B`
#[tactic(auto, unfolding(crate::specs::Grammar::quotient_of))]
fn quotient(alloc: Global, text: &[u8]) -> Result<Option<Keys>, NoMemory>
    ensures { IfOk result (λ keys. keys ≡ quotient_of text.now) }
{
    let Some((by, listed)) = cut_text(b':', text) else {
        return Ok(None);
    };
    let Some(by) = divisor(u64::MAX, by) else {
        return Ok(None);
    };
    let Some(listed) = numbers(alloc, u64::MAX, listed)? else {
        return Ok(None);
    };
    Ok(Some(Keys::Quotient { by, listed }))
}

/// Nothing.
#[tactic(auto, unfolding(crate::specs::Grammar::every_of))]
pub(crate) fn every(text: &[u8]) -> Option<Keys>
    ensures { result ≡ every_of text.now }
{
    if text.is_empty() {
        Some(Keys::Every)
    } else {
        None
    }
}

/// A number from 1 to `max`.
#[tactic(auto, unfolding(crate::specs::Grammar::divisor_of))]
pub(crate) fn divisor(max: u64, text: &[u8]) -> Option<u64>
    ensures value { result ≡ divisor_of max text.now }
    ensures some { IfSome result (λ by. 1 ≤ by) }
    ensures small { IfSome result (λ by. by ≤ max) }
{
    let number = read_number(text, max)?;
    if 1 <= number { Some(number) } else { None }
}

/// `B,B`, each at most `max`.
#[tactic(auto, unfolding(crate::specs::Grammar::listed_of))]
fn numbers(alloc: Global, max: u64, text: &[u8]) -> Result<Option<Numbers>, NoMemory>
    ensures { IfOk result (λ numbers. numbers ≡ listed_of max text.now) }
{
    let texts = parts(alloc, b',', text)?;
    let Some(numbers) = each_number(alloc, max, &texts)? else {
        return Ok(None);
    };
    if numbers.len() <= MAX_NUMBERS && rises(&numbers) {
        Ok(Some(Numbers::new(numbers)))
    } else {
        Ok(None)
    }
}

/// The numbers of the texts, each at most `max`.
fn each_number(alloc: Global, max: u64, texts: &[&[u8]]) -> Result<Option<Vec<u64>>, NoMemory>
    ensures { IfOk result (λ numbers. option_map (λ v. v.items) numbers ≡ numbers_of max (map (λ text. text.now) texts.now)) }
{
    let mut numbers = Vec::with_capacity(alloc, texts.len())?;
    for text in texts {
        let Some(number) = read_number(text, max) else {
            return Ok(None);
        };
        numbers.push(number)?;
    }
    Ok(Some(numbers))
}

/// Whether each number is above the one before it.
fn rises(numbers: &[u64]) -> bool
    ensures { result ≡ rises None numbers.now }
{
    let mut before = None;
    for number in numbers {
        if !is_above(before, *number) {
            return false;
        }
        before = Some(*number);
    }
    true
}
