use bus_types::{NoMemory, read_number};
use std::alloc::Global;

/// The first word of a text, and what stands behind it.
pub fn cut(text: &str) -> (&str, &str) {
    text.split_once(' ').unwrap_or((text, ""))
}

/// The number of a word, or 0.
pub fn number(word: &str) -> u64 {
    read_number(word.as_bytes(), u64::MAX).unwrap_or(0)
}

/// The same, up to 65,536.
pub fn size(word: &str) -> usize {
    number(word).min(65_536) as usize
}

/// The bytes of a text in which `\r` and `\n` stand for CR and LF, `\xHH` for a byte, and `\p` for so many times `a`.
pub fn bytes_of(alloc: Global, text: &str, pad: usize) -> Result<Vec<u8>, NoMemory> {
    let mut bytes = Vec::new(alloc);
    for (place, part) in text.split('\\').enumerate() {
        if place == 0 {
            bytes.extend_from_slice(part.as_bytes())?;
        } else {
            put_escaped(&mut bytes, part.as_bytes(), pad)?;
        }
    }
    Ok(bytes)
}

// Puts what stands behind one `\`.
fn put_escaped(bytes: &mut Vec<u8>, part: &[u8], pad: usize) -> Result<(), NoMemory> {
    match part {
        [b'r', rest @ ..] => put_both(bytes, b'\r', rest),
        [b'n', rest @ ..] => put_both(bytes, b'\n', rest),
        [b'x', high, low, rest @ ..] => put_both(bytes, digit(*high) << 4 | digit(*low), rest),
        [b'p', rest @ ..] => {
            bytes.resize(bytes.len().saturating_add(pad), b'a')?;
            bytes.extend_from_slice(rest)?;
            Ok(())
        }
        _ => Ok(()),
    }
}

fn put_both(bytes: &mut Vec<u8>, byte: u8, rest: &[u8]) -> Result<(), NoMemory> {
    bytes.push(byte)?;
    bytes.extend_from_slice(rest)?;
    Ok(())
}

// The value of a hexadecimal digit in lower case, or 0.
fn digit(byte: u8) -> u8 {
    match byte {
        b'0'..=b'9' => byte - b'0',
        b'a'..=b'f' => byte - b'a' + 10,
        _ => 0,
    }
}

/// A text in which CR and LF stand as `\r` and `\n`.
pub fn shown(alloc: Global, text: &str) -> Result<String, NoMemory> {
    let mut shown = String::new(alloc);
    for part in text.chars() {
        match part {
            '\r' => shown.push_str("\\r")?,
            '\n' => shown.push_str("\\n")?,
            other => shown.push(other)?,
        }
    }
    Ok(shown)
}
