//! The report of a fault: its first line, its line with marks, and sentences.
ghost use Rattle.std.specs.Prelude.{◌≡◌, ◌++◌, IfOk};
ghost use Rattle.std.specs.String.{string_bytes};
ghost use Rattle.explain_hints.specs.Files.{name_in, text_in};
ghost use Rattle.explain_hints.specs.Places.{lines_ended};
ghost use Rattle.explain_faults.specs.Explained.{BeginsWith, IsHeading, IsRemarkAt, line_beginning, line_end};

use crate::explanation::FaultExplanation;
use explain_hints::{LineColumn, NamedTexts, line_at, marked, place_of};
use faults::{Code, NoMemory};
use std::alloc::{AllocError, Global};

impl FaultExplanation<'_> {
    /// The report of the fault: a line with its place, what is wrong, and its number and name; the line of the text with the faulty
    /// bytes marked below; and a line of further sentences, if there are any. Each line ends with LF.
    ///
    /// ```text
    /// domain.pddl:12:27: error: `?t` has type `thing`, but `fast` requires `car` [19 WrongType]
    ///   12 |       :precondition (and (fast ?t))
    ///      |                                ^^
    /// ```
    ///
    /// # Errors
    /// An allocation failed.
    pub fn text(&self, alloc: Global, texts: &NamedTexts<'_>) -> Result<String, NoMemory>
        ensures { IfOk result (λ text. BeginsWith (string_bytes text) (IsHeading (name_in texts.now self.now.fault.file) (text_in texts.now self.now.fault.file) self.now.fault.span.start self.now.place self.now.fault.code)) }
    {
        let mut out = self.first_line(alloc, texts)?;
        let after = self.lines_after(alloc, texts)?;
        out.push_str(after.as_str())?;
        Ok(out)
    }

    /// The first line: what is wrong, and where.
    fn first_line(&self, alloc: Global, texts: &NamedTexts<'_>) -> Result<String, NoMemory>
        ensures { IfOk result (λ line. IsHeading (name_in texts.now self.now.fault.file) (text_in texts.now self.now.fault.file) self.now.fault.span.start self.now.place self.now.fault.code (string_bytes line)) }
    {
        let line = FirstLine {
            name: texts.name(self.fault.file),
            place: self.place,
            message: message_in(self.remarks.sentence.as_str()),
            code: self.fault.code,
            remark: remark_on(texts.text(self.fault.file), self.fault.span.start),
        };
        Ok(line.text(alloc)?)
    }

    /// The lines after the first one.
    fn lines_after(&self, alloc: Global, texts: &NamedTexts<'_>) -> Result<String, NoMemory> {
        let mut out = marked(alloc, texts.text(self.fault.file), self.fault.span)?;
        self.remarks.add_asides(&mut out)?;
        self.add_wrong_lines(alloc, texts, &mut out)?;
        Ok(out)
    }
}

/// What the first line of a report says.
#[derive(Clone, Copy)]
struct FirstLine<'a> {
    name: &'a str,
    place: LineColumn,
    message: &'a str,
    code: Code,
    remark: &'static str,
}

impl FirstLine<'_> {
    /// The line, with its LF.
    fn text(self, alloc: Global) -> Result<String, AllocError>
        ensures { IfOk result (λ line. string_bytes line ≡ line_beginning self.entry.name.now self.entry.place self.entry.message.now ++ line_end self.entry.code self.entry.remark.now) }
    {
        let mut line = self.beginning(alloc)?;
        let end = self.end(alloc)?;
        line.push_str(end.as_str())?;
        Ok(line)
    }

    /// The place and the message.
    fn beginning(self, alloc: Global) -> Result<String, AllocError>
        ensures { IfOk result (λ text. string_bytes text ≡ line_beginning self.entry.name.now self.entry.place self.entry.message.now) }
    {
        let (name, message) = (self.name, self.message);
        let (line, column) = (self.place.line, self.place.column);
        format!(in alloc; "{name}:{line}:{column}: error: {message}")
    }

    /// The number and name of the fault, and the remark.
    fn end(self, alloc: Global) -> Result<String, AllocError>
        ensures { IfOk result (λ text. string_bytes text ≡ line_end self.entry.code self.entry.remark.now) }
    {
        let remark = self.remark;
        let number = self.code.number();
        let code = self.code.name();
        format!(in alloc; " [{number} {code}]{remark}\n")
    }
}

/// What a report says about the columns of the line at this offset: that they count bytes, if some byte is not ASCII.
fn remark_on(text: &[u8], offset: usize) -> &'static str
    ensures { IsRemarkAt text.now offset result.now }
{
    let line = line_at(text, offset);
    if text[line.start..line.end].is_ascii() {
        ""
    } else {
        " (columns count bytes)"
    }
}

/// A sentence as a message: its first line, without a full stop.
fn message_in(sentence: &str) -> &str
    ensures { lines_ended result.now ≡ 0 }
{
    let line = sentence.lines().next().unwrap_or("");
    if_one_line(line.strip_suffix(".").unwrap_or(line))
}

/// The text if it has no line feed; otherwise nothing.
fn if_one_line(text: &str) -> &str
    ensures { lines_ended result.now ≡ 0 }
{
    let bytes = text.as_bytes();
    let end = place_of(bytes, bytes.len());
    if end.line == 1 { text } else { "" }
}
