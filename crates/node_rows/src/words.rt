use bus_types::{NoMemory, read_number};
use std::alloc::Global;
use std::test::Fail;

/// The first word of a text, and what stands behind it.
pub fn cut(text: &str) -> (&str, &str) {
    text.split_once(' ').unwrap_or((text, ""))
}

/// What stands behind the first line that begins with a word.
pub fn rest_of<'a>(lines: &'a str, word: &str) -> Option<&'a str> {
    for line in lines.lines() {
        let (first, rest) = cut(line);
        if first == word {
            return Some(rest);
        }
    }
    None
}

/// The number of a word, or 0.
pub fn number(word: &str) -> u64 {
    read_number(word.as_bytes(), u64::MAX).unwrap_or(0)
}

/// The bytes of a text in which `\e` stands for CR and LF.
pub fn bytes_of(alloc: Global, text: &str) -> Result<Vec<u8>, NoMemory> {
    let mut bytes = Vec::new(alloc);
    for (place, part) in text.split("\\e").enumerate() {
        if place > 0 {
            bytes.extend_from_slice(b"\r\n")?;
        }
        bytes.extend_from_slice(part.as_bytes())?;
    }
    Ok(bytes)
}

/// Bytes as a text: `\r`, `\n`, and `\xHH` for what isn't printed.
pub fn shown(alloc: Global, bytes: &[u8]) -> Result<String, NoMemory> {
    let mut text = String::new(alloc);
    for byte in bytes {
        put_byte(&mut text, *byte)?;
    }
    Ok(text)
}

fn put_byte(text: &mut String, byte: u8) -> Result<(), NoMemory> {
    match byte {
        b'\r' => text.push_str("\\r")?,
        b'\n' => text.push_str("\\n")?,
        b' '..=b'~' => text.push(char::from(byte))?,
        _ => {
            text.push_str("\\x")?;
            text.push(digit(byte >> 4))?;
            text.push(digit(byte & 15))?;
        }
    }
    Ok(())
}

// A hexadecimal digit.
fn digit(value: u8) -> char {
    match value {
        0..=9 => char::from(b'0' + value),
        10..=15 => char::from(b'a' + value - 10),
        _ => '?',
    }
}

/// The answer whose body has these bytes, which are written as two digits each.
pub fn answer_of(alloc: Global, digits: &str) -> Result<Vec<u8>, Fail> {
    let body = hex::decode(alloc, digits)?;
    let mut text = answer_head(alloc, body.len())?;
    text.extend_from_slice(&body)?;
    Ok(text)
}

// The head of an answer whose body has so many bytes.
fn answer_head(alloc: Global, count: usize) -> Result<Vec<u8>, NoMemory> {
    let head = format!(in alloc; "HTTP/1.1 200 OK\r\nContent-Length: {count}\r\n\r\n")?;
    Ok(head.into_bytes())
}
