//! Texts as tables write them, and bytes as they are printed.

use anyhow::{Context, Result};
use std::alloc::{AllocError, Global};

/// The words of a command line.
pub fn words_of(alloc: Global, text: &str) -> Result<Vec<String>, AllocError> {
    let mut words = Vec::new(alloc);
    for word in text.split_ascii_whitespace() {
        let word = if word == "''" { "" } else { word };
        words.push(String::from_str(alloc, word)?)?;
    }
    Ok(words)
}

/// A text as it is meant.
pub fn meant(alloc: Global, text: &str) -> Result<String> {
    let lines = text.replace(alloc, '/', "\n")?;
    let mut whole = String::new(alloc);
    for (place, piece) in lines.as_str().split('{').enumerate() {
        let mut plain = piece;
        if place > 0 {
            let (repeat, rest) = piece.split_once('}').context("a repeat has no end")?;
            push_repeat(&mut whole, repeat)?;
            plain = rest;
        }
        whole.push_str(plain)?;
    }
    Ok(whole)
}

// A text as often as the number in front of it says.
fn push_repeat(whole: &mut String, repeat: &str) -> Result<()> {
    let (count, text) = repeat.split_once(' ').context("a repeat has no text")?;
    for time in 1..=count.parse::<u64>()? {
        push_once(whole, text, time)?;
    }
    Ok(())
}

// A text with the number of the time for each `@`.
fn push_once(whole: &mut String, text: &str, time: u64) -> Result<()> {
    for (place, piece) in text.split('@').enumerate() {
        if place == 0 {
            whole.push_str(piece)?;
        } else if let Some(offset) = piece.strip_prefix('+') {
            let (number, plain) = offset.split_once(' ').context("no blank behind an offset")?;
            let number = time.saturating_add(number.parse::<u64>()?);
            write!(whole, "{number} {plain}")?;
        } else {
            write!(whole, "{time}{piece}")?;
        }
    }
    Ok(())
}

/// Bytes as they are printed.
pub fn printed(alloc: Global, bytes: &[u8]) -> Result<String, AllocError> {
    let mut text = String::new(alloc);
    for byte in bytes {
        match *byte {
            b'\n' => text.push('/')?,
            b' '..=b'~' => text.push(char::from(*byte))?,
            _ => write!(text, "\\x{byte:02x}")?,
        }
    }
    Ok(text)
}
