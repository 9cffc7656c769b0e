use bus_stores::Fail as Listed;
use bus_types::{Change, Cursor, Key, MarkText, Payload, read_number};
use std::alloc::Global;
use std::fmt::Debug;
use std::str;
use std::test::Fail;

/// The first word of a text, and what stands behind it.
pub fn cut(text: &str) -> (&str, &str) {
    text.split_once(' ').unwrap_or((text, ""))
}

/// The number of a word, or 0.
pub fn number(word: &str) -> u64 {
    read_number(word.as_bytes(), u64::MAX).unwrap_or(0)
}

/// The same, up to the greatest number of its type.
pub fn small(word: &str) -> u32 {
    number(word).try_into().unwrap_or(u32::MAX)
}

/// Changes of source 0, each `KEY=BYTES` for a put and `KEY` for a delete.
pub fn changes(alloc: Global, text: &str) -> Result<Vec<Change>, Fail> {
    let mut changes = Vec::new(alloc);
    for word in text.split_whitespace() {
        add_change(alloc, &mut changes, word)?;
    }
    Ok(changes)
}

fn add_change(alloc: Global, changes: &mut Vec<Change>, word: &str) -> Result<(), Fail> {
    match word.split_once('=') {
        None => add(changes, number(word), None),
        Some((key, bytes)) => add_put(alloc, changes, number(key), bytes),
    }
}

/// Adds the put of a key in source 0.
pub fn add_put(
    alloc: Global,
    changes: &mut Vec<Change>,
    key: u64,
    bytes: &str,
) -> Result<(), Fail> {
    let payload = Payload::new(alloc, bytes.as_bytes())?;
    add(changes, key, Some(payload))
}

fn add(changes: &mut Vec<Change>, key: u64, put: Option<Payload>) -> Result<(), Fail> {
    changes.push(Change {
        source: 0,
        key: Key::Long(key),
        put,
    })?;
    Ok(())
}

/// The text of a mark.
pub fn mark_text(alloc: Global, words: &str) -> Result<MarkText, Fail> {
    Ok(MarkText::new(alloc, words.as_bytes())?)
}

/// The bytes of hexadecimal digits and spaces.
pub fn bytes_of(alloc: Global, digits: &str) -> Result<Vec<u8>, Fail> {
    let mut bytes = Vec::new(alloc);
    for part in digits.split_whitespace() {
        add_bytes(alloc, &mut bytes, part)?;
    }
    Ok(bytes)
}

fn add_bytes(alloc: Global, bytes: &mut Vec<u8>, digits: &str) -> Result<(), Fail> {
    let part = hex::decode(alloc, digits.as_bytes())?;
    bytes.extend_from_slice(&part)?;
    Ok(())
}

/// The calls that are to fail: the number of each, with a `+` where a commit or an append is to fail after it counts.
pub fn listed(alloc: Global, text: &str) -> Result<Vec<Listed>, Fail> {
    let mut fails = Vec::new(alloc);
    for word in text.split_whitespace() {
        fails.push(one_listed(word))?;
    }
    Ok(fails)
}

fn one_listed(word: &str) -> Listed {
    let (call, after) = match word.strip_suffix('+') {
        None => (word, false),
        Some(call) => (call, true),
    };
    Listed {
        call: number(call),
        after,
    }
}

/// The place before the first row for `start`, or else after the row of this key in source 0.
pub fn cursor(word: &str) -> Cursor {
    if word == "start" {
        return Cursor::Start;
    }
    Cursor::After {
        source: 0,
        key: Key::Long(number(word)),
    }
}

/// The text of some bytes.
pub fn shown(bytes: &[u8]) -> &str {
    str::from_utf8(bytes).unwrap_or("no text")
}

/// What a call answered.
pub fn said(alloc: Global, answer: &impl Debug) -> Result<String, Fail> {
    Ok(format!(in alloc; "{answer:?}")?)
}

/// A text of its own.
pub fn text(alloc: Global, words: &str) -> Result<String, Fail> {
    Ok(String::from_str(alloc, words)?)
}
