//! A fault of a file, and the bytes it is reported for.
ghost use Rattle.std.specs.Prelude.{◌≡◌};
ghost use Rattle.explain_hints.specs.Files.{text_in};
ghost use Rattle.explain_hints.specs.ReportedBytes.{reported_in};

use crate::texts::{File, NamedTexts};
use faults::RefusalIn;

/// The refusal of a file: its code and its place.
pub type FileRefusal = RefusalIn<File>;

/// The bytes that a fault is reported for, clipped to the text.
pub fn reported_bytes<'a>(texts: &NamedTexts<'a>, fault: FileRefusal) -> &'a [u8]
    ensures { result.now ≡ reported_in (text_in texts.now fault.file) fault.span.start fault.span.end }
{
    let text = texts.text(fault.file);
    let end = fault.span.end.min(text.len());
    let start = fault.span.start.min(end);
    &text[start..end]
}
