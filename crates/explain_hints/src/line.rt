//! The line of a byte.
ghost use Rattle.std.specs.Prelude.{◌≡◌, ◌≤◌, ◌+◌, length, min};
ghost use Rattle.explain_hints.specs.Places.{IsLineAt, IsWithinLine, BeginsLine, EndsLine};

use faults::Span;

/// The line that contains the byte at an offset, without its LF. An offset past the end counts as the end.
///
/// # Examples
/// In `ab\ncd\n` the line at offset 4 is `3..5`, and so is the line at 5, its LF; the line at 6 is `6..6`.
pub fn line_at(text: &[u8], offset: usize) -> Span
    ensures { IsLineAt text.now (min offset (length text.now)) result }
{
    let offset = offset.min(text.len());
    Span {
        start: line_start(text, offset),
        end: line_end(text, offset),
    }
}

/// Where the line at an offset begins.
fn line_start(text: &[u8], offset: usize) -> usize
    requires { offset ≤ length text.now }
    ensures within { IsWithinLine text.now result offset }
    ensures begins { BeginsLine text.now result }
{
    let mut start = 0;
    for i in 0..offset {
        if text[i] == b'\n' {
            start = i + 1;
        }
    }
    start
}

/// Where the line at an offset ends.
fn line_end(text: &[u8], offset: usize) -> usize
    requires { offset ≤ length text.now }
    ensures within { IsWithinLine text.now offset result }
    ensures ends { EndsLine text.now result }
{
    let mut end = offset;
    while end < text.len() && text[end] != b'\n' {
        end += 1;
    }
    end
}
