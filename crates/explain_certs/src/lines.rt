//! The lines of a certificate's text.
use faults::Span;

/// A line of a text, without its LF.
#[derive(Clone, Copy)]
pub(crate) struct Line<'a> {
    /// Its bytes.
    pub bytes: &'a [u8],
    /// Where it is in the text.
    pub span: Span,
}

/// The line with this number, counted from 1; `None` if the text has fewer.
pub(crate) fn line_of(text: &[u8], number: u64) -> Option<Line<'_>> {
    let mut start = 0usize;
    let mut left = number;
    for bytes in text.split(|byte| *byte == b'\n') {
        let end = start.saturating_add(bytes.len());
        if left <= 1 {
            let span = Span { start, end };
            return Some(Line { bytes, span });
        }
        left -= 1;
        start = end.saturating_add(1);
    }
    None
}
