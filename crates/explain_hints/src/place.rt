//! The line and the column of a byte.
ghost use Rattle.std.specs.Prelude.{◌≡◌};
ghost use Rattle.explain_hints.specs.Places.{IsPlace};

/// A place in a text, as an editor shows it.
#[derive(Clone, Copy, Debug, PartialEq, Eq)]
pub struct LineColumn {
    /// The number of the line, from 1.
    pub line: usize,
    /// The number of the byte in its line, from 1.
    pub column: usize,
}

/// The place of the byte at an offset of a text. An offset past the end counts as the end.
///
/// Lines end with LF, and columns count bytes: a tab and a carriage return count as one each.
///
/// # Examples
/// ```
/// assert_eq!(rt; place_of(b"ab\ncd", 4), LineColumn { line: 2, column: 2 });
/// ```
pub fn place_of(text: &[u8], offset: usize) -> LineColumn
    ensures { IsPlace text.now offset result }
{
    let before = &text[..offset.min(text.len())];
    let mut line = 1;
    let mut column = 1;
    for byte in before {
        if *byte == b'\n' {
            line += 1;
            column = 1;
        } else {
            column += 1;
        }
    }
    LineColumn { line, column }
}
