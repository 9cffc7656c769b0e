ghost use Rattle.std.specs.Prelude.{◌≡◌, ◌≤◌, ◌∷◌, Some, None, true, map, IfOk, IfSome, IsErr, IsErrOf, string_bytes};
ghost use Rattle.trace_script.specs.Words.{number_in, name_of, selection_of};
ghost use Rattle.bus_node.specs.Words.{number_at, name_at, filter_at, relay_at, bootstrap_at, polling_at, consume_at, relay_words, bootstrap_words, consume_words, relay_node, bootstrap_node, consume_node, node_words, has_options, relay_names, bootstrap_names, consume_names, is_plain, IsPort, IsRelay, IsBootstrap, IsPolling, IsConsume, IsInRange};
ghost use Rattle.bus_node.specs.Options.{said_by};

use crate::options::{read_options, text_at};
use bus_types::{NoMemory, read_number};
use clap::ArgMatches;
use partition_filter::{Filter, FilterFault};
use std::alloc::Global;
use trace_script::Name;

/// The names of a relay's options.
const RELAY_NAMES: [&str; 4] = ["port", "bytes", "windows", "connections"];

/// The names of a bootstrap's options.
const BOOTSTRAP_NAMES: [&str; 4] = ["port", "relay", "rounds", "connections"];

/// The names of a consumer's options.
const CONSUME_NAMES: [&str; 6] = ["name", "filter", "relay", "bootstrap", "polls", "max"];

/// The greatest port.
const MAX_PORT: u64 = 65_535;

/// The least bytes of windows that a relay may be told to keep at most.
const MIN_BYTES: u64 = 1_048_576;

/// The most bytes of windows that a relay may be told to keep at most.
const MAX_BYTES: u64 = 268_435_456;

/// The most windows that a relay may be told to keep at most.
const MAX_WINDOWS: u32 = 65_536;

/// The most connections, rounds or polls.
const MAX_COUNT: u32 = 1_000_000;

/// The most bytes that a consumer asks for.
const MAX_REPLY: u32 = 16_777_216;

/// What the words of a relay say.
#[derive(Clone, Copy, Debug, PartialEq, Eq)]
pub struct RelayWords {
    /// The port at which it listens, 1 to 65,535.
    pub port: u16,
    /// The most bytes of windows that it keeps, 1,048,576 to 268,435,456.
    pub bytes: u64,
    /// The most windows that it keeps, 1 to 65,536.
    pub windows: u32,
    /// How many connections it serves, 1 to 1,000,000.
    pub connections: u32,
}

/// What the words of a bootstrap say.
#[derive(Clone, Copy, Debug, PartialEq, Eq)]
pub struct BootstrapWords {
    /// The port at which it listens, 1 to 65,535.
    pub port: u16,
    /// The port of its relay, 1 to 65,535.
    pub relay: u16,
    /// How many rounds it makes, 1 to 1,000,000.
    pub rounds: u32,
    /// How many connections it serves, 1 to 1,000,000.
    pub connections: u32,
}

/// What the words of a consumer say.
#[derive(Debug, Drop)]
pub struct ConsumeWords {
    /// Its name.
    pub name: Name,
    /// Which rows it follows.
    pub filter: Filter,
    /// The port of its relay, 1 to 65,535.
    pub relay: u16,
    /// The port of its bootstrap, 1 to 65,535.
    pub bootstrap: u16,
    /// How many polls it makes, 1 to 1,000,000.
    pub polls: u32,
    /// The most bytes of a reply, 1 to 16,777,216.
    pub max: u32,
}

/// What the words of a consumer say but its name and its filter.
#[derive(Clone, Copy, Debug, PartialEq, Eq)]
struct Polling {
    relay: u16,
    bootstrap: u16,
    polls: u32,
    max: u32,
}

/// Which node some words start.
#[derive(Debug, Drop)]
pub enum NodeWords {
    /// A relay.
    Relay(RelayWords),
    /// A bootstrap.
    Bootstrap(BootstrapWords),
    /// A consumer.
    Consume(ConsumeWords),
}

/// Why words were not read.
#[derive(Clone, Copy, Debug, PartialEq, Eq)]
pub enum WordsFault {
    /// They are no form of a node's command.
    Usage,
    /// Memory ran out.
    NoMemory,
}

// The number from one to another that a text spells.
#[tactic(auto, unfolding(trace_script::specs::Words::number_in))]
fn number_in(least: u64, most: u64, text: &str) -> Option<u64>
    ensures value { result ≡ number_in least most text.now }
    ensures within { IfSome result (λ number. (least ≤ number) × (number ≤ most)) }
{
    let number = read_number(text.as_bytes(), most)?;
    if least <= number { Some(number) } else { None }
}

// The number from one to another that an option says.
#[tactic(auto, unfolding(crate::specs::Words::number_at))]
fn number_at(name: &str, least: u64, most: u64, matches: &ArgMatches<'_>) -> Option<u64>
    ensures value { result ≡ number_at name.now least most (said_by matches.now) }
    ensures within { IfSome result (λ number. (least ≤ number) × (number ≤ most)) }
{
    let text = text_at(name, matches)?;
    number_in(least, most, text)
}

// The port that an option says.
fn port_at(name: &str, matches: &ArgMatches<'_>) -> Option<u16>
    ensures value { result ≡ number_at name.now 1 65535 (said_by matches.now) }
    ensures within { IfSome result IsPort }
{
    let port = number_at(name, 1, MAX_PORT, matches)?;
    Some(port as u16)
}

// The number from 1 to another that an option says.
fn count_at(name: &str, most: u32, matches: &ArgMatches<'_>) -> Option<u32>
    ensures value { result ≡ number_at name.now 1 most (said_by matches.now) }
    ensures within { IfSome result (λ count. (1 ≤ count) × (count ≤ most)) }
{
    let count = number_at(name, 1, u64::from(most), matches)?;
    Some(count as u32)
}

// The name of a consumer that an option says.
#[tactic(auto, unfolding(crate::specs::Words::name_at, trace_script::specs::Words::name_of))]
fn name_at(name: &str, matches: &ArgMatches<'_>) -> Option<Name>
    ensures { result ≡ name_at name.now (said_by matches.now) }
{
    let text = text_at(name, matches)?;
    Name::new(text.as_bytes())
}

// The filter that a text spells.
fn filter_in(alloc: Global, text: &str) -> Result<Option<Filter>, NoMemory>
    ensures { IfOk result (λ filter. filter ≡ selection_of text.now) }
{
    match Filter::read(alloc, text) {
        Ok(filter) => Ok(Some(filter)),
        Err(FilterFault::BadFilter { .. }) => Ok(None),
        Err(FilterFault::NoMemory) => Err(NoMemory),
    }
}

// The filter that an option spells.
#[tactic(auto, unfolding(crate::specs::Words::filter_at))]
fn filter_at(
    alloc: Global,
    name: &str,
    matches: &ArgMatches<'_>,
) -> Result<Option<Filter>, NoMemory>
    ensures { IfOk result (λ filter. filter ≡ filter_at name.now (said_by matches.now)) }
{
    let Some(text) = text_at(name, matches) else {
        return Ok(None);
    };
    filter_in(alloc, text)
}

// What the options of a relay say.
#[tactic(auto, unfolding(crate::specs::Words::relay_at))]
fn relay_at(matches: &ArgMatches<'_>) -> Option<RelayWords>
    ensures value { result ≡ relay_at (said_by matches.now) }
    ensures within { IfSome result IsRelay }
{
    let port = port_at("port", matches)?;
    let bytes = number_at("bytes", MIN_BYTES, MAX_BYTES, matches)?;
    let windows = count_at("windows", MAX_WINDOWS, matches)?;
    let connections = count_at("connections", MAX_COUNT, matches)?;
    Some(RelayWords {
        port,
        bytes,
        windows,
        connections,
    })
}

// What the options of a bootstrap say.
#[tactic(auto, unfolding(crate::specs::Words::bootstrap_at))]
fn bootstrap_at(matches: &ArgMatches<'_>) -> Option<BootstrapWords>
    ensures value { result ≡ bootstrap_at (said_by matches.now) }
    ensures within { IfSome result IsBootstrap }
{
    let port = port_at("port", matches)?;
    let relay = port_at("relay", matches)?;
    let rounds = count_at("rounds", MAX_COUNT, matches)?;
    let connections = count_at("connections", MAX_COUNT, matches)?;
    Some(BootstrapWords {
        port,
        relay,
        rounds,
        connections,
    })
}

// What the options of a consumer say but its name and its filter.
#[tactic(auto, unfolding(crate::specs::Words::polling_at))]
fn polling_at(matches: &ArgMatches<'_>) -> Option<Polling>
    ensures value { result ≡ polling_at (said_by matches.now) }
    ensures within { IfSome result IsPolling }
{
    let relay = port_at("relay", matches)?;
    let bootstrap = port_at("bootstrap", matches)?;
    let polls = count_at("polls", MAX_COUNT, matches)?;
    let max = count_at("max", MAX_REPLY, matches)?;
    Some(Polling {
        relay,
        bootstrap,
        polls,
        max,
    })
}

// What the options of a consumer say.
#[tactic(auto, unfolding(crate::specs::Words::consume_at))]
fn consume_at(alloc: Global, matches: &ArgMatches<'_>) -> Result<Option<ConsumeWords>, NoMemory>
    ensures value { IfOk result (λ found. found ≡ consume_at (said_by matches.now)) }
    ensures within { IfOk result (λ found. IfSome found IsConsume) }
{
    let Some(name) = name_at("name", matches) else {
        return Ok(None);
    };
    let Some(polling) = polling_at(matches) else {
        return Ok(None);
    };
    let Some(filter) = filter_at(alloc, "filter", matches)? else {
        return Ok(None);
    };
    Ok(Some(ConsumeWords {
        name,
        filter,
        relay: polling.relay,
        bootstrap: polling.bootstrap,
        polls: polling.polls,
        max: polling.max,
    }))
}

// What the words of a relay say.
#[tactic(auto, using(crate::proofs::Forms::relays))]
fn relay_words(alloc: Global, words: &[String]) -> Result<Option<RelayWords>, NoMemory>
    ensures value { IfOk result (λ found. found ≡ relay_words (map string_bytes words.now)) }
    ensures within { IfOk result (λ found. IfSome found IsRelay) }
    ensures memory { IsErr result → has_options relay_names (map string_bytes words.now) ≡ true }
{
    let Some(matches) = read_options(alloc, &RELAY_NAMES, words)? else {
        return Ok(None);
    };
    Ok(relay_at(&matches))
}

// What the words of a bootstrap say.
#[tactic(auto, using(crate::proofs::Forms::bootstraps))]
fn bootstrap_words(alloc: Global, words: &[String]) -> Result<Option<BootstrapWords>, NoMemory>
    ensures value { IfOk result (λ found. found ≡ bootstrap_words (map string_bytes words.now)) }
    ensures within { IfOk result (λ found. IfSome found IsBootstrap) }
    ensures memory { IsErr result → has_options bootstrap_names (map string_bytes words.now) ≡ true }
{
    let Some(matches) = read_options(alloc, &BOOTSTRAP_NAMES, words)? else {
        return Ok(None);
    };
    Ok(bootstrap_at(&matches))
}

// What the words of a consumer say.
#[tactic(auto, using(crate::proofs::Forms::consumes))]
fn consume_words(alloc: Global, words: &[String]) -> Result<Option<ConsumeWords>, NoMemory>
    ensures value { IfOk result (λ found. found ≡ consume_words (map string_bytes words.now)) }
    ensures within { IfOk result (λ found. IfSome found IsConsume) }
    ensures memory { IsErr result → has_options consume_names (map string_bytes words.now) ≡ true }
{
    let Some(matches) = read_options(alloc, &CONSUME_NAMES, words)? else {
        return Ok(None);
    };
    consume_at(alloc, &matches)
}

#[tactic(auto, unfolding(crate::specs::Words::relay_node))]
fn relay_node(alloc: Global, words: &[String]) -> Result<Option<NodeWords>, NoMemory>
    ensures value { IfOk result (λ found. found ≡ relay_node (map string_bytes words.now)) }
    ensures within { IfOk result (λ found. IfSome found IsInRange) }
    ensures memory { IsErr result → has_options relay_names (map string_bytes words.now) ≡ true }
{
    let Some(found) = relay_words(alloc, words)? else {
        return Ok(None);
    };
    Ok(Some(NodeWords::Relay(found)))
}

#[tactic(auto, unfolding(crate::specs::Words::bootstrap_node))]
fn bootstrap_node(alloc: Global, words: &[String]) -> Result<Option<NodeWords>, NoMemory>
    ensures value { IfOk result (λ found. found ≡ bootstrap_node (map string_bytes words.now)) }
    ensures within { IfOk result (λ found. IfSome found IsInRange) }
    ensures memory { IsErr result → has_options bootstrap_names (map string_bytes words.now) ≡ true }
{
    let Some(found) = bootstrap_words(alloc, words)? else {
        return Ok(None);
    };
    Ok(Some(NodeWords::Bootstrap(found)))
}

#[tactic(auto, unfolding(crate::specs::Words::consume_node))]
fn consume_node(alloc: Global, words: &[String]) -> Result<Option<NodeWords>, NoMemory>
    ensures value { IfOk result (λ found. found ≡ consume_node (map string_bytes words.now)) }
    ensures within { IfOk result (λ found. IfSome found IsInRange) }
    ensures memory { IsErr result → has_options consume_names (map string_bytes words.now) ≡ true }
{
    let Some(found) = consume_words(alloc, words)? else {
        return Ok(None);
    };
    Ok(Some(NodeWords::Consume(found)))
}

// The node of its word and the words behind it.
#[tactic(auto, unfolding(crate::specs::Words::node_words, crate::specs::Words::is_plain))]
fn node_of(alloc: Global, first: &str, words: &[String]) -> Result<Option<NodeWords>, NoMemory>
    ensures value { IfOk result (λ found. found ≡ node_words (first.now ∷ map string_bytes words.now)) }
    ensures within { IfOk result (λ found. IfSome found IsInRange) }
    ensures memory { IsErr result → is_plain (first.now ∷ map string_bytes words.now) ≡ true }
{
    if first.as_bytes() == b"relay".as_slice() {
        return relay_node(alloc, words);
    }
    if first.as_bytes() == b"bootstrap".as_slice() {
        return bootstrap_node(alloc, words);
    }
    if first.as_bytes() == b"consume".as_slice() {
        return consume_node(alloc, words);
    }
    Ok(None)
}

// The node that words start.
#[tactic(auto, unfolding(crate::specs::Words::node_words), using(crate::proofs::Pairs::firsts))]
fn node_words(alloc: Global, words: &[String]) -> Result<Option<NodeWords>, NoMemory>
    ensures value { IfOk result (λ found. found ≡ node_words (map string_bytes words.now)) }
    ensures within { IfOk result (λ found. IfSome found IsInRange) }
    ensures memory { IsErr result → is_plain (map string_bytes words.now) ≡ true }
{
    let [first, rest @ ..] = words else {
        return Ok(None);
    };
    node_of(alloc, first.as_str(), rest)
}

/// What the words of a command say: the word `relay`, `bootstrap` or `consume`, and then each option of that node once, in any
/// order, as the two words `--name value`, with each value in its range. `Usage` comes exactly where they aren't of that form.
/// `NoMemory` comes where memory ran out, and only of words of the plain form: a node's word and each of its options once, each
/// with a value that begins with no hyphen. All other words are answered `Usage`, whatever memory there is.
pub fn read_words(alloc: Global, words: &[String]) -> Result<NodeWords, WordsFault>
    ensures found { IfOk result (λ w. node_words (map string_bytes words.now) ≡ Some w) }
    ensures within { IfOk result IsInRange }
    ensures usage { IsErrOf result WordsFault.Usage → node_words (map string_bytes words.now) ≡ None }

    // Memory is wanted only for words of the plain form.
    ensures memory { IsErrOf result WordsFault.NoMemory → is_plain (map string_bytes words.now) ≡ true }
{
    match node_words(alloc, words) {
        Ok(Some(found)) => Ok(found),
        Ok(None) => Err(WordsFault::Usage),
        Err(NoMemory) => Err(WordsFault::NoMemory),
    }
}
