use bus_types::{NoMemory, read_number};
use std::alloc::Global;

/// The first word of a text, and what stands behind it.
pub fn cut(text: &str) -> (&str, &str) {
    text.split_once(' ').unwrap_or((text, ""))
}

/// The number of a word, or 0.
pub fn number(word: &str) -> u64 {
    read_number(word.as_bytes(), u64::MAX).unwrap_or(0)
}

/// The bytes of a text in which `\e` stands for CR and LF, and a last `\l` for 16,384 letters.
pub fn bytes_of(alloc: Global, text: &str) -> Result<Vec<u8>, NoMemory> {
    let mut bytes = Vec::new(alloc);
    let (front, is_long) = match text.strip_suffix("\\l") {
        Some(front) => (front, true),
        None => (text, false),
    };
    put_lines(&mut bytes, front)?;
    if is_long {
        put_letters(&mut bytes)?;
    }
    Ok(bytes)
}

fn put_lines(bytes: &mut Vec<u8>, text: &str) -> Result<(), NoMemory> {
    for (place, part) in text.split("\\e").enumerate() {
        if place > 0 {
            bytes.extend_from_slice(b"\r\n")?;
        }
        bytes.extend_from_slice(part.as_bytes())?;
    }
    Ok(())
}

fn put_letters(bytes: &mut Vec<u8>) -> Result<(), NoMemory> {
    for _ in 0..1_024 {
        bytes.extend_from_slice(b"aaaaaaaaaaaaaaaa")?;
    }
    Ok(())
}

/// Bytes as a text: `\r`, `\n`, and `\xHH` for what isn't printed.
pub fn shown(alloc: Global, bytes: &[u8]) -> Result<String, NoMemory> {
    let mut text = String::new(alloc);
    for byte in bytes {
        put_byte(&mut text, *byte)?;
    }
    Ok(text)
}

fn put_byte(text: &mut String, byte: u8) -> Result<(), NoMemory> {
    match byte {
        b'\r' => text.push_str("\\r")?,
        b'\n' => text.push_str("\\n")?,
        b' '..=b'~' => text.push(char::from(byte))?,
        _ => put_digits(text, byte)?,
    }
    Ok(())
}

// Puts a byte as `\xHH`.
fn put_digits(text: &mut String, byte: u8) -> Result<(), NoMemory> {
    let (high, low) = (digit(byte >> 4), digit(byte & 15));
    write!(text, "\\x{high}{low}")?;
    Ok(())
}

// A hexadecimal digit.
fn digit(value: u8) -> char {
    match value {
        0..=9 => char::from(b'0' + value),
        10..=15 => char::from(b'a' + value - 10),
        _ => '?',
    }
}
