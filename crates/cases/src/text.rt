//! The bytes denoted by the lines of a section.
use crate::section::Escapes;
use std::alloc::{AllocError, Global};

/// Adds the lines, each with its LF, without blank lines at the end.
pub fn add_lines(lines: &str, bytes: &mut Vec<u8>) -> Result<(), AllocError> {
    let kept = lines.trim_end_matches('\n');
    bytes.extend_from_slice(kept.as_bytes())?;
    if !kept.is_empty() {
        bytes.push(b'\n')?;
    }
    Ok(())
}

/// Adds the line. Its escapes are `\n`, `\r`, `\t`, `\\`, `\xHH` for a byte, `\#` for the repetition's number and `\@` for the
/// case's byte.
pub fn add_unescaped(
    alloc: Global,
    line: &str,
    escapes: Escapes,
    bytes: &mut Vec<u8>,
) -> Result<(), AllocError> {
    let mut state = State::Plain;
    for &byte in line.as_bytes() {
        let (next, made) = step(state, byte, escapes.byte);
        state = next;
        add_made(alloc, made, escapes.number, bytes)?;
    }
    Ok(())
}

/// The state while reading a line with escapes.
#[derive(Clone, Copy)]
enum State {
    /// An ordinary byte or a backslash is next.
    Plain,
    /// The letter after a backslash is next.
    Escape,
    /// The first digit of a byte is next.
    High,
    /// The second digit is next; this is the value of the first.
    Low(u8),
}

/// The output of a byte of a line.
#[derive(Clone, Copy)]
enum Output {
    /// Nothing yet.
    Nothing,
    /// A byte.
    Byte(u8),
    /// The repetition's number.
    Number,
}

/// The next state after a byte of a line, and the output of the byte.
fn step(state: State, byte: u8, each: Option<u8>) -> (State, Output) {
    match state {
        State::Plain if byte == b'\\' => (State::Escape, Output::Nothing),
        State::Plain => (State::Plain, Output::Byte(byte)),
        State::Escape if byte == b'x' => (State::High, Output::Nothing),
        State::Escape => (State::Plain, escaped(byte, each)),
        State::High => (State::Low(digit(byte)), Output::Nothing),
        State::Low(high) => (
            State::Plain,
            Output::Byte(high.wrapping_mul(16) | digit(byte)),
        ),
    }
}

/// The output of a letter after a backslash.
fn escaped(letter: u8, each: Option<u8>) -> Output {
    match letter {
        b'n' => Output::Byte(b'\n'),
        b'r' => Output::Byte(b'\r'),
        b't' => Output::Byte(b'\t'),
        b'#' => Output::Number,
        b'@' => match each {
            Some(byte) => Output::Byte(byte),
            None => Output::Nothing,
        },
        other => Output::Byte(other),
    }
}

fn add_made(
    alloc: Global,
    made: Output,
    number: u32,
    bytes: &mut Vec<u8>,
) -> Result<(), AllocError> {
    match made {
        Output::Nothing => {}
        Output::Byte(byte) => bytes.push(byte)?,
        Output::Number => bytes.extend_from_slice(format!(in alloc; "{number}")?.as_bytes())?,
    }
    Ok(())
}

/// The value of a hexadecimal digit; 0 for any other byte.
fn digit(byte: u8) -> u8 {
    let digits: &[u8] = b"0123456789abcdef";
    let lower = byte.to_ascii_lowercase();
    let place = digits.iter().position(|&digit| digit == lower).unwrap_or(0);
    u8::try_from(place).unwrap_or(0)
}
