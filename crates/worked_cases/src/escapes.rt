// Escapes of bytes in the text of cases.
use anyhow::{Result, bail};
use std::alloc::{AllocError, Global};
use std::fmt::Write;

/// How far an escape is read.
#[derive(Clone, Copy)]
enum Escape {
    None,
    /// Behind `\`.
    Begun,
    /// Behind `\x`.
    Hex,
    /// Behind `\x` and a first digit of this value.
    Digit(u8),
}

/// Appends the bytes that a line stands for, with its end, which a `\` at the end of the line drops.
pub(crate) fn push_line(bytes: &mut Vec<u8>, line: &str) -> Result<()> {
    let mut escape = Escape::None;
    for byte in line.bytes() {
        escape = match escape {
            Escape::None if byte == b'\\' => Escape::Begun,
            Escape::None => {
                bytes.push(byte)?;
                Escape::None
            }
            Escape::Begun if byte == b'x' => Escape::Hex,
            Escape::Begun => {
                bytes.push(escaped(byte)?)?;
                Escape::None
            }
            Escape::Hex => Escape::Digit(hex_value(byte)?),
            Escape::Digit(high) => {
                bytes.push(high.wrapping_mul(16).wrapping_add(hex_value(byte)?))?;
                Escape::None
            }
        };
    }
    match escape {
        Escape::None => bytes.push(b'\n')?,
        Escape::Begun => {}
        Escape::Hex | Escape::Digit(_) => bail!("an escape lacks a digit"),
    }
    Ok(())
}

/// The byte that a letter behind `\` stands for.
fn escaped(letter: u8) -> Result<u8> {
    match letter {
        b'n' => Ok(b'\n'),
        b'r' => Ok(b'\r'),
        b't' => Ok(b'\t'),
        b'\\' => Ok(b'\\'),
        _ => bail!("no escape has this letter"),
    }
}

/// The value of a hexadecimal digit.
fn hex_value(digit: u8) -> Result<u8> {
    match digit {
        b'0'..=b'9' => Ok(digit - b'0'),
        b'a'..=b'f' => Ok(digit - b'a' + 10),
        b'A'..=b'F' => Ok(digit - b'A' + 10),
        _ => bail!("an escape has no hexadecimal digit"),
    }
}

/// The bytes as a case would write them: lines behind `|`, with escapes.
pub(crate) fn shown(alloc: Global, bytes: &[u8]) -> Result<String, AllocError> {
    let mut text = String::new(alloc);
    let mut inside = false;
    for byte in bytes {
        if !inside {
            text.push_str("| ")?;
            inside = true;
        }
        match *byte {
            b'\n' => {
                text.push('\n')?;
                inside = false;
            }
            b'\\' => text.push_str("\\\\")?,
            b' '..=b'~' => text.push(char::from(*byte))?,
            other => write!(text, "\\x{other:02x}")?,
        }
    }
    if inside {
        text.push_str("\\\n")?;
    }
    Ok(text)
}
