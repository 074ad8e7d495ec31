//! Further faults of two files, after the first.
ghost use Rattle.std.specs.Prelude.{◌≡◌, ◌∷◌, false, map, IfOk, IsTrue, OnOk};
ghost use Rattle.std.specs.String.{string_bytes};
ghost use Rattle.typing.specs.Task.{file_of, refusal_of};
ghost use Rattle.explain_hints.specs.Refusals.{FileRefusal};
ghost use Rattle.file_answers.specs.FurtherFaults.{AreFurther, IsFaultOfTexts, IsReportedAt, SayFault, further_text};
ghost use Rattle.file_answers.specs.Complete.{IsAccounted, IsComplete, IsOfTyping, IsReportedAmong, fault_in, of_pair, one_of_files};
ghost use Rattle.file_answers.specs.Explanations.{IsExplainedAlone, IsFaultExplained};
ghost use Rattle.explain_hints.specs.Files.{file_view, name_in, text_in};
ghost use Rattle.model.specs.Files.{of_task};

use crate::explaining::of_plan::joined;
use crate::explanation::{Explanation, FurtherFault};
use crate::files::faults_of_files;
use explain_faults::{FileRefusal, are_of_one_mistake, explain_fault};
use explain_hints::{CutTexts, File, NamedTexts};
use faults::{Code, NoMemory, RefusalIn};
use std::alloc::Global;
use typing::{TaskFile, TaskRefusal};

/// The maximum number of further faults that are reported.
const MOST: usize = 20;

/// The lines of the faults, with an empty line before each. If the limit is reached, a last line says that there may be more.
fn further_text(alloc: Global, further: &[FurtherFault]) -> Result<String, NoMemory>
    ensures { IfOk result (λ text. string_bytes text ≡ further_text further.now) }
{
    let mut text = String::new(alloc);
    'faults: for fault in further {
        text.push_str("\n")?;
        text.push_str(fault.text.as_str())?;
    }
    if further.len() < MOST {
        return Ok(text);
    }
    joined(text, "\nthere may be more faults: mend these first\n")
}

/// A search for the faults of two files other than the first.
#[derive(Clone, Copy)]
pub(super) struct FurtherSearch<'w, 'a> {
    pub(super) alloc: Global,
    pub(super) texts: &'w NamedTexts<'a>,
    /// The pieces of the texts.
    pub(super) pieces: &'w CutTexts<'a>,
    pub(super) first: FileRefusal,
}

impl FurtherSearch<'_, '_> {
    /// The explanation of the first fault, followed by the lines of the others.
    pub(super) fn with_further(self, alone: Explanation) -> Result<Explanation, NoMemory>
        requires { IsExplainedAlone self.texts.now self.first.file self.first.code self.first.span alone }
        ensures { IfOk result (IsFaultExplained self.entry.texts.now self.entry.first.file self.entry.first.code self.entry.first.span) }
    {
        let further = self.further_faults()?;
        let more = further_text(self.alloc, &further)?;
        let text = joined(alone.text, more.as_str())?;
        Ok(Explanation {
            subject: alone.subject,
            text,
            location: alone.location,
            hints: alone.hints,
            further,
            notes: alone.notes,
        })
    }

    /// The further faults, each with its lines, if the first is a typing fault.
    fn further_faults(self) -> Result<Vec<FurtherFault>, NoMemory>
        ensures further { IfOk result (λ further. AreFurther self.entry.texts.now further.items) }
        ensures complete { IfOk result (λ further. IsComplete (text_in self.entry.texts.now) self.entry.first further.items) }
    {
        let mut further = Vec::new(self.alloc);
        if !is_of_typing(self.first.code) {
            return Ok(further);
        }
        let texts = self.texts;
        let found = faults_of_files(self.alloc, texts.domain.text, texts.problem.text)?;
        'faults: for refusal in &found {
            self.add_fault(*refusal, &mut further)?;
        }
        Ok(further)
    }

    /// Adds a fault with its lines, unless already reported or the limit is reached.
    fn add_fault(
        self,
        refusal: TaskRefusal,
        further: &mut Vec<FurtherFault>,
    ) -> Result<(), NoMemory>
        requires { IsFaultOfTexts self.texts.now.domain.text.now self.texts.now.problem.text.now (refusal_of refusal) }
        ensures further { OnOk result (AreFurther self.entry.texts.now further.old.items → AreFurther self.entry.texts.now further.new.items) }
        // No fault is left out.
        ensures kept { OnOk result ((fault : FileRefusal) → IsAccounted (text_in self.entry.texts.now) self.entry.first further.old.items fault → IsAccounted (text_in self.entry.texts.now) self.entry.first further.new.items fault) }
        ensures added { OnOk result (IsAccounted (text_in self.entry.texts.now) self.entry.first further.new.items (of_pair refusal)) }
    {
        let fault = in_file(refusal);
        if further.len() >= MOST {
            return Ok(());
        }
        if self.is_reported(fault, further) {
            return Ok(());
        }
        let text = self.text_of(fault)?;
        further.push(FurtherFault { fault, text })?;
        Ok(())
    }

    /// The lines of a fault.
    fn text_of(self, fault: FileRefusal) -> Result<String, NoMemory>
        ensures { IfOk result (λ text. SayFault (name_in self.entry.texts.now fault.file) (text_in self.entry.texts.now fault.file) fault (string_bytes text)) }
    {
        let explained = explain_fault(self.alloc, self.texts, self.pieces, fault)?;
        explained.text(self.alloc, self.texts)
    }

    /// Whether a fault comes from the same mistake as the first or one of those already reported.
    fn is_reported(self, fault: FileRefusal, further: &[FurtherFault]) -> bool
        ensures { IsTrue result → IsReportedAmong (text_in self.entry.texts.now) (self.entry.first ∷ map fault_in further.now) fault }
    {
        if are_of_one_mistake(self.texts, fault, self.first) {
            return true;
        }
        'others: for other in further {
            if are_of_one_mistake(self.texts, fault, other.fault) {
                return true;
            }
        }
        false
    }
}

/// Whether typing reports this code. Other faults come alone, so the files need not be read again for them.
fn is_of_typing(code: Code) -> bool
    ensures { result ≡ false → ¬ IsOfTyping code }
{
    matches!(code.number(), 14..=25)
}

/// A typing fault as a fault of a file.
fn in_file(refusal: TaskRefusal) -> FileRefusal
    ensures reported { IsReportedAt (refusal_of refusal) result }
    ensures value { result ≡ of_pair refusal }
{
    RefusalIn {
        file: one_of_files(refusal.file),
        code: refusal.code,
        span: refusal.span,
    }
}

/// A file of a task as one of the input files.
fn one_of_files(file: TaskFile) -> File
    ensures reported { file_view result ≡ of_task (file_of file) }
    ensures value { result ≡ one_of_files file }
{
    match file {
        TaskFile::Domain => File::Domain,
        TaskFile::Problem => File::Problem,
    }
}
