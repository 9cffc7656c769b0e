ghost use Rattle.std.specs.Prelude.{◌≡◌, ◌<◌, ◌≤◌, ◌∷◌, true, false, map, option_map, length, bytes_eq, IfOk, IfSome, IfNone, IsErr, string_bytes};
ghost use Rattle.std.specs.List.{list_all};
ghost use Rattle.clap.specs.Words.{app_of, kind_of, rule_of};
ghost use Rattle.clap.specs.declared.error.kind.ErrorKind.TheVariants.{OutOfMemory};
ghost use Rattle.bus_node.specs.Words.{in_pairs, values_of, option_word, is_plain_value, is_said, has_options};
ghost use Rattle.bus_node.specs.Options.{option_rule, options_app, said_by, AreNames};

use bus_types::NoMemory;
use clap::{Arg, ArgMatches, Command, Error};
use std::alloc::Global;

// The first two of some words, and those behind them.
#[tactic(auto, using(crate::proofs::Pairs::pairs))]
fn next_pair(words: &[String]) -> Option<(&str, &str, &[String])>
    ensures some { IfSome result (λ pair. map string_bytes words.now ≡ pair.0.now ∷ pair.1.now ∷ map string_bytes pair.2.now) }
    ensures shorter { IfSome result (λ pair. length pair.2.now < length words.now) }
    ensures none { IfNone result (length words.now < 2) }
{
    let [name, value, rest @ ..] = words else {
        return None;
    };
    Some((name.as_str(), value.as_str(), rest))
}

// Whether a word is that of an option.
#[tactic(auto, using(crate::proofs::Pairs::hyphens))]
fn is_option(name: &str, word: &str) -> bool
    ensures { result ≡ bytes_eq word.now (option_word name.now) }
{
    let [first, second, rest @ ..] = word.as_bytes() else {
        return false;
    };
    *first == b'-' && *second == b'-' && rest == name.as_bytes()
}

// The value of an option, where it stands.
#[tactic(auto, using(crate::proofs::Pairs::values))]
fn value_of<'a>(name: &str, words: &'a [String]) -> Option<&'a str>
    ensures { option_map (λ value. value.now) result ≡ values_of (in_pairs (map string_bytes words.now)) name.now }
{
    let mut rest = words;
    'pairs: while let Some((first, value, after)) = next_pair(rest) {
        if is_option(name, first) {
            return Some(value);
        }
        rest = after;
    }
    None
}

// Whether a value begins with no hyphen.
#[tactic(auto, using(crate::proofs::Pairs::hyphens))]
fn is_plain_value(value: &str) -> bool
    ensures { result ≡ is_plain_value value.now }
{
    match value.as_bytes() {
        [first, ..] => *first != b'-',
        [] => true,
    }
}

// Whether an option stands, with such a value.
fn is_said(name: &str, words: &[String]) -> bool
    ensures { result ≡ is_said (values_of (in_pairs (map string_bytes words.now)) name.now) }
{
    match value_of(name, words) {
        Some(value) => is_plain_value(value),
        None => false,
    }
}

// Whether the option of each name stands, with such a value.
fn are_said(names: &[&str], words: &[String]) -> bool
    ensures { result ≡ list_all (λ name. is_said (values_of (in_pairs (map string_bytes words.now)) name.now)) names.now }
{
    names.iter().all(|name| is_said(name, words))
}

// Whether words are as many options as there are names, and the option of each name stands, with such a value.
#[tactic(auto, using(crate::proofs::Pairs::sizes))]
fn has_options(names: &[&str], words: &[String]) -> bool
    requires { length names.now ≤ 6 }
    ensures { result ≡ has_options (map (λ name. name.now) names.now) (map string_bytes words.now) }
{
    words.len() == names.len() * 2 && are_said(names, words)
}

// An option of one value, which is read back by its name.
fn option<'a>(alloc: Global, name: &'a str) -> Arg<'a>
    ensures rule { rule_of result ≡ option_rule name.now }
    ensures local { result.global ≡ false }
{
    Arg::new(alloc, name).long(name)
}

// A command of these options alone, whose words have no program's name in front.
#[tactic(auto, using(crate::proofs::Walks::commands))]
fn command_of<'a>(alloc: Global, names: &[&'a str]) -> Result<Command<'a>, NoMemory>
    ensures { IfOk result (λ command. app_of command ≡ options_app (map (λ name. name.now) names.now)) }
{
    let mut command = Command::new(alloc, "node")
        .no_binary_name(true)
        .disable_help_flag(true);
    for name in names {
        command = command.arg(option(alloc, name))?;
    }
    Ok(command)
}

// What an error means that comes of no word.
fn no_memory(_error: Error) -> NoMemory
    requires { kind_of _error ≡ OutOfMemory }
{
    NoMemory
}

// What the options of words say that are of the plain form.
fn matches_of<'a>(
    alloc: Global,
    names: &[&'a str],
    words: &'a [String],
) -> Result<ArgMatches<'a>, NoMemory>
    requires names { AreNames (map (λ name. name.now) names.now) }
    requires form { has_options (map (λ name. name.now) names.now) (map string_bytes words.now) ≡ true }
    ensures { IfOk result (λ matches. said_by matches ≡ values_of (in_pairs (map string_bytes words.now))) }
{
    let command = command_of(alloc, names)?;
    match command.try_get_matches_from(words) {
        Ok(matches) => Ok(matches),
        Err(error) => Err(no_memory(error)),
    }
}

/// What the options of some words say, where the words are of the plain form: as many options as there are names, each name's
/// among them, as two words, of which the second begins with no hyphen. The form is tested before any memory is taken, so want
/// of memory comes only of words of that form.
pub fn read_options<'a>(
    alloc: Global,
    names: &[&'a str],
    words: &'a [String],
) -> Result<Option<ArgMatches<'a>>, NoMemory>
    requires names { AreNames (map (λ name. name.now) names.now) }
    requires few { length names.now ≤ 6 }
    ensures none { IfOk result (λ found. IfNone found (has_options (map (λ name. name.now) names.now) (map string_bytes words.now) ≡ false)) }
    ensures form { IfOk result (λ found. IfSome found (λ _. has_options (map (λ name. name.now) names.now) (map string_bytes words.now) ≡ true)) }
    ensures said { IfOk result (λ found. IfSome found (λ matches. said_by matches ≡ values_of (in_pairs (map string_bytes words.now)))) }
    ensures memory { IsErr result → has_options (map (λ name. name.now) names.now) (map string_bytes words.now) ≡ true }
{
    if !has_options(names, words) {
        return Ok(None);
    }
    let matches = matches_of(alloc, names, words)?;
    Ok(Some(matches))
}

/// The text that an option says, or None where that option isn't among those that were read.
#[tactic(auto, unfolding(crate::specs::Options::said_by))]
pub fn text_at<'a>(name: &str, matches: &ArgMatches<'a>) -> Option<&'a str>
    ensures { option_map (λ text. text.now) result ≡ said_by matches.now name.now }
{
    matches.get_str(name)
}
