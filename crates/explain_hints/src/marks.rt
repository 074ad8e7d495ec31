//! A line of a text with marks below it.
ghost use Rattle.std.specs.Prelude.{◌≡◌, ◌≤◌, ◌<◌, ◌+◌, length, slice_index};

use crate::line::line_at;
use crate::place::place_of;
use faults::{NoMemory, Span};
use std::alloc::{AllocError, Global};

/// The maximum number of bytes of a line that are shown.
const WIDEST: usize = 100;

/// The number of bytes shown before the marked ones when a line is cut.
const LEAD: usize = 40;

/// The line that a span begins in, with its number, and marks below the span's bytes: two lines, each with LF.
///
/// ```text
///   12 |       :precondition (and (fast ?t))
///      |                           ^^^^
/// ```
///
/// - Of a line over 100 bytes, 100 are shown, with `...` where it is cut; up to 40 of them come before the span.
/// - A tab is copied as a tab to both lines, so that the marks line up at any tab width. Any other byte that is not printable
///   ASCII is shown as `\xNN`. A carriage return at the end of the line is left out.
/// - A span of several lines is marked up to the end of its first line. If there is nothing to mark, a single `^` is shown.
///
/// # Errors
/// An allocation failed.
pub fn marked(alloc: Global, text: &[u8], span: Span) -> Result<String, NoMemory> {
    let line = trimmed(text, line_at(text, span.start));
    let part = part_around(line, span.start);
    let before = if line.start < part.start { "..." } else { "" };
    let after = if part.end < line.end { "..." } else { "" };
    let number = place_of(text, span.start).line;
    let mut out = format!(in alloc; "{number:>4}")?;
    let width = out.len();
    out.push_str(" | ")?;
    out.push_str(before)?;
    add_shown(&text[part.start..part.end], &mut out)?;
    out.push_str(after)?;
    add_below(width, before.len(), &mut out)?;
    add_marks(text, part, span, &mut out)?;
    Ok(out)
}

/// Ends a line, and begins the next one with blanks: below the number of the line, and below what comes before the shown part.
fn add_below(number: usize, before: usize, out: &mut String) -> Result<(), AllocError> {
    out.push_str("\n")?;
    add_times(" ", number, out)?;
    out.push_str(" | ")?;
    add_times(" ", before, out)
}

/// A line without the carriage return at its end.
fn trimmed(text: &[u8], line: Span) -> Span
    requires order { line.start ≤ line.end }
    requires within { line.end ≤ length text.now }
    ensures start { result.start ≡ line.start }
    ensures order { line.start ≤ result.end }
    ensures end { result.end ≤ line.end }
    ensures one { line.end ≤ result.end + 1 }
    ensures return_alone { result.end < line.end → slice_index text.now result.end ≡ 13 }
{
    if line.start < line.end && text[line.end - 1] == b'\r' {
        Span {
            start: line.start,
            end: line.end - 1,
        }
    } else {
        line
    }
}

/// The part of a line that is shown: all of it, or for a long line the bytes around an offset.
fn part_around(line: Span, offset: usize) -> Span
    requires order { line.start ≤ line.end }
    ensures start { line.start ≤ result.start }
    ensures order { result.start ≤ result.end }
    ensures end { result.end ≤ line.end }
    ensures few { result.end ≤ result.start + 100 }
    ensures whole { line.end ≤ line.start + 100 → result ≡ line }
    ensures has { line.start ≤ offset → offset < line.end → (result.start ≤ offset) × (offset < result.end) }
{
    if line.end - line.start <= WIDEST {
        return line;
    }
    let required = offset.saturating_sub(LEAD);
    let start = required.max(line.start).min(line.end - WIDEST);
    Span {
        start,
        end: start + WIDEST,
    }
}

/// Appends bytes as they are shown.
fn add_shown(bytes: &[u8], out: &mut String) -> Result<(), AllocError> {
    for byte in bytes {
        match *byte {
            b'\t' => out.push_str("\t")?,
            b' '..=b'~' => out.push(char::from(*byte))?,
            _ => write!(out, "\\x{byte:02x}")?,
        }
    }
    Ok(())
}

/// Appends what goes below a part of a line: blanks up to the span, marks below it, and LF.
fn add_marks(text: &[u8], part: Span, span: Span, out: &mut String) -> Result<(), AllocError>
    requires order { part.start ≤ part.end }
    requires within { part.end ≤ length text.now }
{
    let start = span.start.max(part.start).min(part.end);
    let end = span.end.max(start).min(part.end);
    for byte in &text[part.start..start] {
        add_times(
            if *byte == b'\t' { "\t" } else { " " },
            width_of(*byte),
            out,
        )?;
    }
    for byte in &text[start..end] {
        add_times("^", width_of(*byte), out)?;
    }
    add_times("^", if start == end { 1 } else { 0 }, out)?;
    out.push_str("\n")
}

/// The number of columns that a byte takes; a tab counts as one.
fn width_of(byte: u8) -> usize {
    match byte {
        b'\t' | b' '..=b'~' => 1,
        _ => 4,
    }
}

/// Appends a text `count` times.
fn add_times(text: &str, count: usize, out: &mut String) -> Result<(), AllocError> {
    for _ in 0..count {
        out.push_str(text)?;
    }
    Ok(())
}
