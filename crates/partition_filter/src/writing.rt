ghost use Rattle.std.specs.Prelude.{◌≡◌, ◌∷◌, ◌++◌, codes, decimal, flat_map, map, string_bytes, OnOk};
ghost use Rattle.std.specs.List.{join_with_byte};
ghost use Rattle.partition_filter.specs.Spelling.{listed_text, keys_text, rule_text};

use crate::rule::{Keys, Rule};
use bus_types::NoMemory;

/// Appends the rules, `;` between two.
pub(crate) fn append_rules(rules: &[Rule], out: &mut String) -> Result<(), NoMemory>
    ensures { OnOk result (string_bytes out.new ≡ string_bytes out.old ++ join_with_byte 59 (map rule_text rules.now)) }
{
    let [first, rest @ ..] = rules else {
        return Ok(());
    };
    append_rule(first, out)?;
    append_more_rules(rest, out)
}

/// Appends each rule, a `;` before it.
fn append_more_rules(rules: &[Rule], out: &mut String) -> Result<(), NoMemory>
    ensures { OnOk result (string_bytes out.new ≡ string_bytes out.old ++ flat_map (λ r. 59 ∷ rule_text r) rules.now) }
{
    for rule in rules {
        out.push_str(";")?;
        append_rule(rule, out)?;
    }
    Ok(())
}

/// Appends a rule: its source and its keys.
fn append_rule(rule: &Rule, out: &mut String) -> Result<(), NoMemory>
    ensures { OnOk result (string_bytes out.new ≡ string_bytes out.old ++ rule_text rule.now) }
{
    append_number(u64::from(rule.source), out)?;
    match &rule.keys {
        Keys::Every => append_text("*", out),
        Keys::Remainder { by, listed } => append_keys("%", u64::from(*by), listed.items(), out),
        Keys::Quotient { by, listed } => append_keys("/", *by, listed.items(), out),
    }
}

/// Appends a sign, the number that keys are divided by, and the listed numbers.
fn append_keys(sign: &str, by: u64, listed: &[u64], out: &mut String) -> Result<(), NoMemory>
    ensures { OnOk result (string_bytes out.new ≡ string_bytes out.old ++ (sign.now ++ (decimal by ++ (codes ":" ++ listed_text listed.now)))) }
{
    append_text(sign, out)?;
    append_number(by, out)?;
    append_text(":", out)?;
    append_listed(listed, out)
}

/// Appends the numbers, `,` between two.
fn append_listed(numbers: &[u64], out: &mut String) -> Result<(), NoMemory>
    ensures { OnOk result (string_bytes out.new ≡ string_bytes out.old ++ listed_text numbers.now) }
{
    let [first, rest @ ..] = numbers else {
        return Ok(());
    };
    append_number(*first, out)?;
    append_more_numbers(rest, out)
}

/// Appends each number, a `,` before it.
fn append_more_numbers(numbers: &[u64], out: &mut String) -> Result<(), NoMemory>
    ensures { OnOk result (string_bytes out.new ≡ string_bytes out.old ++ flat_map (λ n. 44 ∷ decimal n) numbers.now) }
{
    for number in numbers {
        out.push_str(",")?;
        append_number(*number, out)?;
    }
    Ok(())
}

/// Appends a number in decimal.
fn append_number(number: u64, out: &mut String) -> Result<(), NoMemory>
    ensures { OnOk result (string_bytes out.new ≡ string_bytes out.old ++ decimal number) }
{
    write!(out, "{number}")?;
    Ok(())
}

pub(crate) fn append_text(text: &str, out: &mut String) -> Result<(), NoMemory>
    ensures { OnOk result (string_bytes out.new ≡ string_bytes out.old ++ text.now) }
{
    out.push_str(text)?;
    Ok(())
}
