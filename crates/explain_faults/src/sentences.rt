//! The sentences about a fault: what is wrong, and what helps.
use crate::explanation::FaultExplanation;
use crate::words::{expected_sentence, is_suggested};
use crate::wrong::{Nesting, WrongPlace};
use explain_hints::{Context, FilePlace, Name, NamedTexts, after_word, marked, reported_bytes};
use faults::{NoMemory, RefusalIn};
use std::alloc::{AllocError, Global};
use tokens::Word;

/// What is said of a fault.
#[derive(Drop)]
pub(crate) struct Remarks {
    /// What is wrong. It may have a full stop or a question mark at its end.
    pub(crate) sentence: String,
    /// Whether the sentence guesses which common mistake is behind the fault.
    is_hint: bool,
    /// What to do about it, if that is known.
    advice: Option<&'static str>,
    /// The tool that can rewrite the file, if there is one.
    rewriter: Option<&'static str>,
}

/// What is said of a fault, given the words that may occur in place of a refused one. A hint is left out where a similar keyword is
/// suggested.
pub(crate) fn remarks_on(
    alloc: Global,
    context: Context<'_, '_>,
    allowed: &[Word<'_>],
) -> Result<Remarks, NoMemory> {
    let word = context.word;
    let (hint, rewriter) = if is_suggested(word, allowed) {
        (None, None)
    } else {
        (context.hint(allowed), context.rewriter())
    };
    let message = hint.and_then(|hint| hint.message);
    Ok(Remarks {
        sentence: match message {
            Some(message) => format!(in alloc; "{message}")?,
            None if allowed.is_empty() => context.sentence()?,
            None => expected_sentence(alloc, word, allowed)?,
        },
        is_hint: message.is_some(),
        advice: hint.and_then(|hint| hint.advice),
        rewriter,
    })
}

impl Remarks {
    /// The sentences beside the first one.
    fn asides(&self) -> [Option<&'static str>; 2] {
        [self.advice, self.rewriter]
    }

    /// The line of the sentences beside the first one, with LF; empty if there are none.
    pub(crate) fn add_asides(&self, out: &mut String) -> Result<(), AllocError> {
        let mut separator = "";
        for aside in self.asides() {
            if let Some(aside) = aside {
                write!(out, "{separator}{aside}")?;
                separator = " ";
            }
        }
        out.push_str(if separator.is_empty() { "" } else { "\n" })
    }
}

impl FaultExplanation<'_> {
    /// Further hints, each without LF: the common mistake behind the fault and what to do about it, the tool that rewrites the
    /// file, and the place where the text goes wrong before the fault.
    ///
    /// # Errors
    /// An allocation failed.
    pub fn hints(&self, alloc: Global, texts: &NamedTexts<'_>) -> Result<Vec<String>, NoMemory> {
        let mut hints = Vec::new(alloc);
        if self.remarks.is_hint {
            hints.push(String::from_str(alloc, self.remarks.sentence.as_str())?)?;
        }
        for aside in self.remarks.asides() {
            if let Some(aside) = aside {
                hints.push(String::from_str(alloc, aside)?)?;
            }
        }
        if let Some(wrong) = self.wrong {
            let mut hint = String::new(alloc);
            write!(hint, "{}: ", self.place_of(texts, wrong.shown.start))?;
            self.add_nesting(texts, wrong, &mut hint)?;
            hints.push(hint)?;
        }
        Ok(hints)
    }

    /// Appends the lines for the place where the text goes wrong before the fault, if there is one: the place, its line with marks,
    /// and a sentence.
    pub(crate) fn add_wrong_lines(
        &self,
        alloc: Global,
        texts: &NamedTexts<'_>,
        out: &mut String,
    ) -> Result<(), NoMemory> {
        let Some(wrong) = self.wrong else {
            return Ok(());
        };
        let place = self.place_of(texts, wrong.shown.start);
        let marks = marked(alloc, texts.text(self.fault.file), wrong.shown)?;
        write!(out, "{place}: the text goes wrong here\n{marks}")?;
        self.add_nesting(texts, wrong, out)?;
        Ok(out.push_str("\n")?)
    }

    /// Appends the sentence about where an unexpected word is within the lists of its text.
    fn add_nesting(
        &self,
        texts: &NamedTexts<'_>,
        wrong: WrongPlace,
        out: &mut String,
    ) -> Result<(), AllocError> {
        let shown = RefusalIn {
            file: self.fault.file,
            code: wrong.refusal.code,
            span: wrong.shown,
        };
        let name = Name(reported_bytes(texts, shown));
        match wrong.nesting {
            Nesting::Inside(open) => {
                let list = self.place_of(texts, open);
                write!(
                    out,
                    "{name} begins inside the list that opens at {list}. Is a `)` missing before it?"
                )
            }
            Nesting::After(open, close) => {
                let list = self.place_of(texts, open);
                let end = self.place_of(texts, close);
                write!(
                    out,
                    "the list that opens at {list} ends before {name}. Is the `)` at {end} one too many?"
                )
            }
            Nesting::Closes(open) => {
                let list = self.place_of(texts, open);
                write!(
                    out,
                    "something is missing in the list that opens at {list} and ends here. Is this `)` one too many?"
                )
            }
            Nesting::Elsewhere => write!(out, "{name} {}.", after_word(shown.code)),
        }
    }

    /// The place of the byte at an offset of the file at fault.
    fn place_of<'t>(&self, texts: &NamedTexts<'t>, offset: usize) -> FilePlace<'t> {
        FilePlace::of(texts, self.fault.file, offset)
    }
}
