// Bytes in hexadecimal.
use std::alloc::{AllocError, Global};

/// A text is bytes in hexadecimal, two digits each, and at least one.
pub fn is_hexadecimal(text: &str) -> bool {
    !text.is_empty()
        && text.len() % 2 == 0
        && text
            .as_bytes()
            .iter()
            .all(|digit| digit.is_ascii_hexdigit())
}

/// The bytes of a text in hexadecimal.
pub fn bytes_of(alloc: Global, text: &str) -> Result<Vec<u8>, AllocError> {
    let mut bytes = Vec::new(alloc);
    let mut front: Option<u8> = None;
    for digit in text.bytes() {
        match front {
            None => front = Some(value(digit)),
            Some(high) => {
                bytes.push((high << 4) | value(digit))?;
                front = None;
            }
        }
    }
    Ok(bytes)
}

// The value of a digit.
fn value(digit: u8) -> u8 {
    match digit {
        b'0'..=b'9' => digit - b'0',
        b'a'..=b'f' => digit - b'a' + 10,
        b'A'..=b'F' => digit - b'A' + 10,
        _ => 0,
    }
}
