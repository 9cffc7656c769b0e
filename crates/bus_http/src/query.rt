ghost use Rattle.std.specs.Prelude.{◌≡◌, ◌<◌, ◌≤◌, bytes_eq, option_map, IfOk, IfSome};
ghost use Rattle.std.specs.Cow.{cow_str_bytes};
ghost use Rattle.form_urlencoded.specs.Parse.{raw_pairs_left};
ghost use Rattle.bus_http.specs.Query.{text_of, first_named, parameter, scn_in, scn_from, scn_above, max_in, filter_in, flag_of, fresh_in, cursor_in};

use bus_types::{Cursor, MAX_SCN, NoMemory, read_cursor, read_number};
use form_urlencoded::{RawPairs, decode, raw_pairs};
use partition_filter::{Filter, FilterFault};
use std::alloc::Global;
use std::borrow::CowStr;

/// The most bytes that a reply is asked for in.
const MAX_REPLY: u64 = 16_777_216;

// Whether the text of an encoded name is this one.
fn is_named(alloc: Global, encoded: &[u8], name: &[u8]) -> Result<bool, NoMemory>
    ensures { IfOk result (λ same. same ≡ bytes_eq (text_of encoded.now) name.now) }
{
    let text = decode(alloc, encoded)?;
    let same = text.as_str().as_bytes() == name;
    Ok(same)
}

// The value of the next pair of this name, behind which the pairs go on.
fn next_named<'a>(
    alloc: Global,
    pairs: &mut RawPairs<'a>,
    name: &[u8],
) -> Result<Option<&'a [u8]>, NoMemory>
    ensures { IfOk result (λ found. option_map (λ value. (value.now, raw_pairs_left pairs.new)) found
        ≡ first_named name.now (raw_pairs_left pairs.old)) }
{
    while let Some((key, value)) = pairs.next() {
        if is_named(alloc, key, name)? {
            return Ok(Some(value));
        }
    }
    Ok(None)
}

// The text of the value of the one pair of this name.
#[tactic(auto, unfolding(crate::specs::Query::parameter))]
fn parameter<'a>(
    alloc: Global,
    query: &'a [u8],
    name: &[u8],
) -> Result<Option<CowStr<'a>>, NoMemory>
    ensures { IfOk result (λ text. option_map cow_str_bytes text ≡ parameter name.now query.now) }
{
    let mut pairs = raw_pairs(query);
    let Some(value) = next_named(alloc, &mut pairs, name)? else {
        return Ok(None);
    };
    let None = next_named(alloc, &mut pairs, name)? else {
        return Ok(None);
    };
    let text = decode(alloc, value)?;
    Ok(Some(text))
}

/// The SCN that a parameter of a query spells.
#[tactic(auto, unfolding(crate::specs::Query::scn_in))]
pub(crate) fn scn(alloc: Global, query: &[u8], name: &[u8]) -> Result<Option<u64>, NoMemory>
    ensures value { IfOk result (λ scn. scn ≡ scn_in name.now query.now) }
    ensures small { IfOk result (λ found. IfSome found (λ scn. scn ≤ MAX_SCN)) }
{
    let Some(text) = parameter(alloc, query, name)? else {
        return Ok(None);
    };
    let number = read_number(text.as_str().as_bytes(), MAX_SCN);
    Ok(number)
}

/// The same, where it is at least this one.
#[tactic(auto, unfolding(crate::specs::Query::scn_from))]
pub(crate) fn scn_from(
    alloc: Global,
    query: &[u8],
    name: &[u8],
    least: u64,
) -> Result<Option<u64>, NoMemory>
    ensures value { IfOk result (λ scn. scn ≡ scn_from least name.now query.now) }
    ensures within { IfOk result (λ found. IfSome found (λ scn. (least ≤ scn) × (scn ≤ MAX_SCN))) }
{
    let Some(scn) = scn(alloc, query, name)? else {
        return Ok(None);
    };
    if least <= scn {
        Ok(Some(scn))
    } else {
        Ok(None)
    }
}

/// The same, where it is above this one.
#[tactic(auto, unfolding(crate::specs::Query::scn_above))]
pub(crate) fn scn_above(
    alloc: Global,
    query: &[u8],
    name: &[u8],
    low: u64,
) -> Result<Option<u64>, NoMemory>
    ensures value { IfOk result (λ scn. scn ≡ scn_above low name.now query.now) }
    ensures within { IfOk result (λ found. IfSome found (λ scn. (low < scn) × (scn ≤ MAX_SCN))) }
{
    let Some(scn) = scn(alloc, query, name)? else {
        return Ok(None);
    };
    if low < scn { Ok(Some(scn)) } else { Ok(None) }
}

/// The most bytes that a query asks for.
#[tactic(auto, unfolding(crate::specs::Query::max_in))]
pub(crate) fn max(alloc: Global, query: &[u8]) -> Result<Option<u32>, NoMemory>
    ensures value { IfOk result (λ max. max ≡ max_in query.now) }
    ensures within { IfOk result (λ found. IfSome found (λ max. (1 ≤ max) × (max ≤ 16777216))) }
{
    let Some(text) = parameter(alloc, query, b"max")? else {
        return Ok(None);
    };
    let Some(max) = read_number(text.as_str().as_bytes(), MAX_REPLY) else {
        return Ok(None);
    };
    if 1 <= max {
        Ok(Some(max as u32))
    } else {
        Ok(None)
    }
}

/// The rows that a query is about.
#[tactic(auto, unfolding(crate::specs::Query::filter_in))]
pub(crate) fn filter(alloc: Global, query: &[u8]) -> Result<Option<Filter>, NoMemory>
    ensures { IfOk result (λ filter. filter ≡ filter_in query.now) }
{
    let Some(text) = parameter(alloc, query, b"filter")? else {
        return Ok(None);
    };
    match Filter::read_bytes(alloc, text.as_str().as_bytes()) {
        Ok(filter) => Ok(Some(filter)),
        Err(FilterFault::BadFilter { .. }) => Ok(None),
        Err(FilterFault::NoMemory) => Err(NoMemory),
    }
}

// Whether a text is `1`, where it is that or `0`.
#[tactic(auto, unfolding(crate::specs::Query::flag_of))]
fn flag_of(text: &[u8]) -> Option<bool>
    ensures { result ≡ flag_of text.now }
{
    if text == b"0".as_slice() {
        return Some(false);
    }
    if text == b"1".as_slice() {
        return Some(true);
    }
    None
}

/// Whether a client gives its rows up.
#[tactic(auto, unfolding(crate::specs::Query::fresh_in))]
pub(crate) fn fresh(alloc: Global, query: &[u8]) -> Result<Option<bool>, NoMemory>
    ensures { IfOk result (λ fresh. fresh ≡ fresh_in query.now) }
{
    let Some(text) = parameter(alloc, query, b"fresh")? else {
        return Ok(None);
    };
    let fresh = flag_of(text.as_str().as_bytes());
    Ok(fresh)
}

/// The row after which a query asks for rows.
#[tactic(auto, unfolding(crate::specs::Query::cursor_in))]
pub(crate) fn cursor(alloc: Global, query: &[u8]) -> Result<Option<Cursor>, NoMemory>
    ensures { IfOk result (λ cursor. cursor ≡ cursor_in query.now) }
{
    let Some(text) = parameter(alloc, query, b"cursor")? else {
        return Ok(None);
    };
    let cursor = read_cursor(text.as_str().as_bytes());
    Ok(cursor)
}
