ghost use Rattle.std.specs.Prelude.{◌≡◌, ◌≤◌, ℕ, List, length, Some, None, if◌then◌else◌};
ghost use Rattle.std.specs.Result.{result_ok};
ghost use Rattle.std.specs.List.{list_all};
ghost use Rattle.hex.specs.Hex.{decode_of};
ghost use Rattle.trace_script.specs.Reading.{Reads};
ghost use Rattle.trace_script.specs.declared.digits.TheConstants.{MOST_SHORT_DIGITS};
ghost use Rattle.bus_types.specs.Text.{number_of};
ghost use Rattle.trace_script.specs.Words.{words_of, is_lower_hex, key_of, payload_of, put_or_delete, change_of, changes_of};

use crate::digits::{MOST_SHORT_DIGITS, decode, decode_short};
use crate::fault::LineFault;
use bus_types::{Change, Key, Payload, PayloadFault, cut_text, read_number};
use std::alloc::Global;

/// The changes that the words of a text spell, in order.
pub(crate) fn changes(alloc: Global, words: &[u8]) -> Result<Vec<Change>, LineFault>
    ensures { Reads (λ changes. changes.items) result (changes_of (words_of words.now)) }
{
    let mut changes = Vec::with_capacity(alloc, 1)?;
    let mut rest = words;
    'words: while let Some((word, behind)) = cut_text(b' ', rest) {
        changes.push(change(alloc, word)?)?;
        rest = behind;
    }
    changes.push(change(alloc, rest)?)?;
    Ok(changes)
}

/// The change that a word spells: `S/K=HEX` puts a row, and `S/K-` deletes it.
#[tactic(auto, unfolding(crate::specs::Words::change_of))]
pub(crate) fn change(alloc: Global, text: &[u8]) -> Result<Change, LineFault>
    ensures { Reads (λ change. change) result (change_of text.now) }
{
    let (source, row) = cut_text(b'/', text).ok_or(LineFault::BadLine)?;
    let source = source_number(source).ok_or(LineFault::BadLine)?;
    match cut_text(b'=', row) {
        Some((key, digits)) => put(alloc, source, key, digits),
        None => delete(source, row).ok_or(LineFault::BadLine),
    }
}

fn source_number(digits: &[u8]) -> Option<u16>
    ensures { result ≡ number_of 65535 digits.now }
{
    let number = read_number(digits, 65535)?;
    Some(number as u16)
}

#[tactic(auto, unfolding(crate::specs::Words::put_or_delete))]
fn put(alloc: Global, source: u16, key: &[u8], digits: &[u8]) -> Result<Change, LineFault>
    ensures { (rest : List ℕ) → Reads (λ change. change) result (put_or_delete source rest (Some (key.now, digits.now))) }
{
    let key = key_number(key).ok_or(LineFault::BadLine)?;
    let payload = payload(alloc, digits)?;
    Ok(Change {
        source,
        key,
        put: Some(payload),
    })
}

/// The change that deletes a row, where a `-` is the last byte of the row.
#[tactic(auto, unfolding(crate::specs::Words::put_or_delete))]
fn delete(source: u16, row: &[u8]) -> Option<Change>
    ensures { result ≡ put_or_delete source row.now None }
{
    let (key, rest) = cut_text(b'-', row)?;
    let key = key_number(key)?;
    if !rest.is_empty() {
        return None;
    }
    Some(Change {
        source,
        key,
        put: None,
    })
}

#[tactic(auto, unfolding(crate::specs::Words::key_of))]
fn key_number(digits: &[u8]) -> Option<Key>
    ensures { result ≡ key_of digits.now }
{
    let number = read_number(digits, u64::MAX)?;
    Some(Key::Long(number))
}

/// The payload of which each byte stands as two lower-case hex digits. One that lies in its own value takes no memory.
#[tactic(auto, unfolding(crate::specs::Words::payload_of))]
fn payload(alloc: Global, digits: &[u8]) -> Result<Payload, LineFault>
    ensures { Reads (λ payload. payload) result (payload_of digits.now) }
{
    if digits.len() <= MOST_SHORT_DIGITS {
        return short_payload(alloc, digits);
    }
    let bytes = hex_bytes(alloc, digits)?;
    Payload::from_vec(bytes).ok_or(LineFault::BadLine)
}

#[tactic(auto, unfolding(crate::specs::Words::payload_of))]
fn short_payload(alloc: Global, digits: &[u8]) -> Result<Payload, LineFault>
    requires { length digits.now ≤ MOST_SHORT_DIGITS }
    ensures { Reads (λ payload. payload) result (payload_of digits.now) }
{
    if digits.len() % 2 != 0 || !all_lower_hex(digits) {
        return Err(LineFault::BadLine);
    }
    let bytes = decode_short(digits);
    match Payload::new(alloc, bytes.as_slice()) {
        Ok(payload) => Ok(payload),
        Err(PayloadFault::TooLong) => Err(LineFault::BadLine),
        Err(PayloadFault::NoMemory) => Err(LineFault::NoMemory),
    }
}

fn hex_bytes(alloc: Global, digits: &[u8]) -> Result<Vec<u8>, LineFault>
    ensures { Reads (λ bytes. bytes.items) result (if list_all is_lower_hex digits.now then result_ok (decode_of digits.now) else None) }
{
    if digits.len() % 2 != 0 || !all_lower_hex(digits) {
        return Err(LineFault::BadLine);
    }
    Ok(decode(alloc, digits)?)
}

// Every digit is looked at, so that there is no branch for each.
fn all_lower_hex(digits: &[u8]) -> bool
    ensures { result ≡ list_all is_lower_hex digits.now }
{
    let mut all = true;
    for digit in digits {
        all &= is_lower_hex(*digit);
    }
    all
}

fn is_lower_hex(digit: u8) -> bool
    ensures { result ≡ is_lower_hex digit }
{
    matches!(digit, b'0'..=b'9' | b'a'..=b'f')
}
