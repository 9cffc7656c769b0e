ghost use Rattle.std.specs.Prelude.{◌≡◌, ◌==◌, ◌<◌, ◌+◌, ◌-◌, ◌*◌, ◌≤◌, length, position, option_map, string_bytes, IfOk, IfSome};
ghost use Rattle.std.specs.List.{list_all};
ghost use Rattle.bus_types.specs.Text.{is_digit, is_numeral, number_of, value_from, u64_of, cut_at, after_of, cursor_of, cursor_text};

use crate::change::Key;
use crate::row::Cursor;
use std::alloc::{AllocError, Global};

/// The number that the bytes spell in decimal, without sign or leading zero, where it is at most `max`. `None` comes
/// exactly where they spell none such.
#[tactic(auto, unfolding(crate::specs::Text::number_of))]
pub fn read_number(bytes: &[u8], max: u64) -> Option<u64>
    ensures value { result ≡ number_of max bytes.now }
    ensures small { IfSome result (λ number. number ≤ max) }
{
    if !is_numeral(bytes) {
        return None;
    }
    let number = value(bytes)?;
    if number <= max { Some(number) } else { None }
}

/// What stands before and after the first such byte, where there is one.
#[tactic(auto, using(std::proofs::lemmas::List::take_rest))]
pub fn cut_text(byte: u8, bytes: &[u8]) -> Option<(&[u8], &[u8])>
    ensures { option_map (λ parts. (parts.0.now, parts.1.now)) result ≡ cut_at byte bytes.now }
{
    let at = place_of(byte, bytes)?;
    Some((&bytes[..at], &bytes[at + 1..]))
}

/// The cursor that a text spells: `start`, or `S/K`, the source and the key of the row before. `None` comes exactly where it
/// spells none.
#[tactic(auto, unfolding(crate::specs::Text::cursor_of))]
pub fn read_cursor(text: &[u8]) -> Option<Cursor>
    ensures { result ≡ cursor_of text.now }
{
    if text == b"start".as_slice() {
        return Some(Cursor::Start);
    }
    read_after(text)
}

#[tactic(auto, unfolding(crate::specs::Text::after_of))]
fn read_after(text: &[u8]) -> Option<Cursor>
    ensures { result ≡ after_of text.now }
{
    let (source, key) = cut_text(b'/', text)?;
    let source = read_number(source, 65535)?;
    let key = read_number(key, u64::MAX)?;
    Some(Cursor::After {
        source: source as u16,
        key: Key::Long(key),
    })
}

/// The text of a cursor, which [`read_cursor`] reads back.
pub fn cursor_text(alloc: Global, cursor: Cursor) -> Result<String, AllocError>
    ensures { IfOk result (λ text. string_bytes text ≡ cursor_text cursor) }
{
    match cursor {
        Cursor::Start => String::from_str(alloc, "start"),
        Cursor::After { source, key } => after_text(alloc, source, key),
    }
}

fn after_text(alloc: Global, source: u16, key: Key) -> Result<String, AllocError>
    ensures { IfOk result (λ text. string_bytes text ≡ cursor_text (Cursor.After source key)) }
{
    let Key::Long(key) = key;
    let text = format!(in alloc; "{source}/{key}")?;
    Ok(text)
}

fn place_of(byte: u8, bytes: &[u8]) -> Option<usize>
    ensures place { result ≡ position (λ b. b == byte) bytes.now }
    ensures within { IfSome result (λ place. place < length bytes.now) }
{
    bytes.iter().position(|b| *b == byte)
}

// Whether the bytes are digits, at least one, without a leading zero but `0` itself.
fn is_numeral(bytes: &[u8]) -> bool
    ensures { result ≡ is_numeral bytes.now }
{
    all_digits(bytes) && !bytes.is_empty() && (bytes.len() == 1 || bytes[0] > b'0')
}

fn all_digits(bytes: &[u8]) -> bool
    ensures { result ≡ list_all is_digit bytes.now }
{
    bytes.iter().all(|b| b.is_ascii_digit())
}

// The value of the digits, where it is below 2 to the 64.
fn value(digits: &[u8]) -> Option<u64>
    ensures { result ≡ u64_of (value_from 0 digits.now) }
{
    let mut value = 0;
    for digit in digits {
        value = with_digit(value, *digit)?;
    }
    Some(value)
}

// The number with one more digit at its end, where it is below 2 to the 64.
fn with_digit(number: u64, digit: u8) -> Option<u64>
    ensures { result ≡ u64_of (number * 10 + (digit - 48)) }
{
    let tens = number.checked_mul(10)?;
    tens.checked_add(u64::from(digit.saturating_sub(b'0')))
}
