ghost use Rattle.std.specs.Prelude.{◌≡◌, ◌↔◌, ◌≤◌, ◌++◌, ℕ, false, bytes_eq, codes, length, IfOk, IfNone, IsOk, IsErrOf, OnOk, IsTrue, string_bytes};
ghost use Rattle.partition_filter.specs.Grammar.{filter_of};
ghost use Rattle.partition_filter.specs.Faults.{fault_of};
ghost use Rattle.partition_filter.specs.Reading.{Reads};
ghost use Rattle.partition_filter.specs.Selection.Selection.{All};
ghost use Rattle.partition_filter.specs.Selection.{Selection, selected};
ghost use Rattle.partition_filter.specs.Spelling.{IsFilter, filter_text};

use crate::accepting::accepts;
use crate::fault::FilterFault;
use crate::faults::first_fault;
use crate::reading::rules;
use crate::rule::Rule;
use crate::writing::{append_rules, append_text};
use bus_types::{Accepts, Key, NoMemory};
use std::alloc::Global;
use std::marker::Model;

/// The most bytes that the text of a filter has.
const MAX_TEXT: usize = 4096;

/// Which rows are meant, by source and key: all, or those that its rules accept, of which each is of another source.
/// Contracts see what it selects.
#[derive(Debug, Drop)]
pub struct Filter {
    rules: Option<Vec<Rule>>,
}

impl Model for Filter {
    ghost use Rattle.partition_filter.specs.Selection.{Selection, selected};
    ghost use Rattle.partition_filter.specs.Spelling.{IsFilter};

    ghost Value = { Selection };

    ghost view = { λ f. selected f.rules };

    ghost invariant = { λ f. IsFilter (selected f.rules) };
}

impl Filter {
    /// The filter that means every row. It takes no memory.
    pub fn everything() -> Filter
        ensures { result ≡ All }
    {
        Filter { rules: None }
    }

    /// The filter that a text of at most 4,096 bytes spells: `all`, or 1 to 64 rules with `;` between two, of strictly
    /// rising sources. `S*` means all rows of source S, `S%N:B,B` those whose key has a listed remainder by N, and
    /// `S/R:B,B` those whose key divided by R, rounded down, is listed. `BadFilter` comes exactly where the text is no
    /// filter, and tells the place of the fault. `NoMemory` comes where memory ran out, and only of a text that is a filter.
    pub fn read(alloc: Global, text: &str) -> Result<Filter, FilterFault>
        ensures exact { Reads result (filter_of text.now) }

        // Memory is wanted only for a filter.
        ensures memory { IsErrOf result FilterFault.NoMemory → IsOk (filter_of text.now) }

        // What is read is spelled so, and what is bad is spelled by no filter.
        ensures found { IfOk result (λ filter. IsFilter filter × (text.now ≡ filter_text filter)) }
        ensures bad { (place : ℕ) → result ≡ Err (FilterFault.BadFilter place) → (filter : Selection) → IsFilter filter
            → text.now ≡ filter_text filter → ⊥ }
    {
        Filter::read_bytes(alloc, text.as_bytes())
    }

    /// As [`Filter::read`], of the bytes of a text. Bytes that are no text are no filter.
    pub fn read_bytes(alloc: Global, text: &[u8]) -> Result<Filter, FilterFault>
        ensures exact { Reads result (filter_of text.now) }

        // Memory is wanted only for a filter.
        ensures memory { IsErrOf result FilterFault.NoMemory → IsOk (filter_of text.now) }

        // What is read is spelled so, and what is bad is spelled by no filter.
        ensures found { IfOk result (λ filter. IsFilter filter × (text.now ≡ filter_text filter)) }
        ensures bad { (place : ℕ) → result ≡ Err (FilterFault.BadFilter place) → (filter : Selection) → IsFilter filter
            → text.now ≡ filter_text filter → ⊥ }
    {
        selection(alloc, text)
    }

    /// Its text, of at most 4,096 bytes, from which [`Filter::read`] reads it back. `NoMemory` comes where memory ran
    /// out; the filter stays as it is.
    pub fn write(&self, alloc: Global) -> Result<String, NoMemory>
        ensures text { IfOk result (λ text. string_bytes text ≡ filter_text self.now) }
        ensures short { length (filter_text self.now) ≤ 4096 }
        ensures read_back { filter_of (filter_text self.now) ≡ Ok self.now }
    {
        let mut text = String::new(alloc);
        append_filter(&self.rules, &mut text)?;
        Ok(text)
    }

    /// An equal filter. `NoMemory` comes where memory ran out.
    pub fn copy(&self, alloc: Global) -> Result<Filter, NoMemory>
        ensures { IfOk result (λ filter. filter ≡ self.now) }
    {
        match &self.rules {
            None => Ok(Filter { rules: None }),
            Some(rules) => Ok(Filter {
                rules: Some(copy_rules(alloc, rules)?),
            }),
        }
    }

    /// Whether it means every row by its text `all`.
    pub fn is_all(&self) -> bool
        ensures value { IsTrue result ↔ (self.now ≡ All) }
        ensures valid { IsFilter self.now }
    {
        self.rules.is_none()
    }
}

fn append_filter(rules: &Option<Vec<Rule>>, out: &mut String) -> Result<(), NoMemory>
    ensures { OnOk result (string_bytes out.new ≡ string_bytes out.old ++ filter_text (selected rules.now)) }
{
    match rules {
        None => append_text("all", out),
        Some(rules) => append_rules(rules, out),
    }
}

fn copy_rules(alloc: Global, rules: &[Rule]) -> Result<Vec<Rule>, NoMemory>
    ensures { IfOk result (λ copies. copies.items ≡ rules.now) }
{
    let mut copies = Vec::with_capacity(alloc, rules.len())?;
    for rule in rules {
        copies.push(rule.copy(alloc)?)?;
    }
    Ok(copies)
}

#[tactic(auto, using(crate::proofs::FaultTexts::fault_known, crate::proofs::FaultTexts::no_fault), unfolding(crate::specs::Grammar::filter_of))]
fn selection(alloc: Global, text: &[u8]) -> Result<Filter, FilterFault>
    ensures exact { Reads result (filter_of text.now) }
    ensures memory { IsErrOf result FilterFault.NoMemory → IsOk (filter_of text.now) }
{
    if text == b"all".as_slice() {
        return Ok(Filter { rules: None });
    }
    if let Some(place) = fault_in(text) {
        return Err(FilterFault::BadFilter { place });
    }
    let rules = rules(alloc, text)?;
    Ok(Filter { rules: Some(rules) })
}

/// The place of the fault of a text that isn't `all`, where it has one. It takes no memory.
#[tactic(auto, using(crate::proofs::FaultTexts::fault_of_selection), unfolding(crate::specs::Grammar::filter_of))]
fn fault_in(text: &[u8]) -> Option<u64>
    requires { bytes_eq text.now (codes "all") ≡ false }
    ensures fault { result ≡ fault_of (filter_of text.now) }
    ensures short { IfNone result (length text.now ≤ 4096) }
{
    if text.len() > MAX_TEXT {
        Some(MAX_TEXT as u64)
    } else {
        first_fault(text)
    }
}

impl Accepts for Filter {
    ghost use Rattle.partition_filter.specs.Selection.{test_of};

    ghost test = { test_of };

    #[inline(always)]
    fn accepts(&self, source: u16, key: &Key) -> bool {
        match &self.rules {
            None => true,
            Some(rules) => accepts(rules, source, key),
        }
    }
}
