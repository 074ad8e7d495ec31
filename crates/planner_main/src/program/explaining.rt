//! `explain`: explanations of files for people.
ghost use Rattle.std.specs.Prelude.{◌≡◌, ℕ, IfErr, IfOk, IsTrue, List, None, ◌∷◌};
ghost use Rattle.planner_main.specs.Program.{CountsFailure, IsExplanationOn, IsOneOf, IsUnread, fault_in, if_named};
ghost use Rattle.file_answers.specs.Files.{text_in};
ghost use Rattle.devices.specs.Texts.{AreKept, items_in};
ghost use Rattle.file_answers.specs.ExplanationLines.{named_as, named_of};
ghost use Rattle.file_answers.specs.Explanations as explanations;
ghost use Rattle.file_answers.specs.StepLines.{is_traced};
ghost use Rattle.std.specs.Option.{option_map};

use crate::failures::Failure;
use crate::program::inputs::{PairNames, read_named, read_pair};
use devices::Files;
use file_answers::{ExplainOptions, ExplainedFiles, NamedText, explain_files};
use printed_answers::Report;
use std::alloc::Global;

/// The plan file and the options of `explain`.
#[derive(Clone, Copy)]
pub(super) struct ExplainAsked<'a> {
    /// The plan file, if any.
    pub(super) plan: Option<&'a str>,
    /// What is asked of the explanation.
    pub(super) options: ExplainOptions,
}

/// The explanation of the files of a task, and of a plan file if one is named.
pub(super) fn report_of_explain<F: Files>(
    alloc: Global,
    names: PairNames<'_>,
    asked: ExplainAsked<'_>,
    files: &mut F,
) -> Result<Report, Failure>
    ensures report { IfOk result (IsExplanationOn (F.contents files.old) names.entry.domain.now names.entry.problem.now (text_in asked.entry.plan) (is_traced asked.entry.options.steps) asked.entry.options.max_instances) }
    // A fault of a text is explained; it is not a failure.
    ensures no_text { IfErr result (λ failure. fault_in failure ≡ None) }
    ensures kept { AreKept (F.contents files.old) (F.contents files.new) }
    ensures unfailed { IfOk result (λ _. F.failures files.new ≡ F.failures files.old) }
    ensures failures { IfErr result (CountsFailure (F.failures files.old) (F.failures files.new)) }
    ensures unread { (name : List ℕ) → IsOneOf (names.entry.domain.now ∷ names.entry.problem.now ∷ if_named (text_in asked.entry.plan)) name → IsTrue (F.is_missing files.old name) → IsUnread result }
    ensures unreadable { (name : List ℕ) → IsOneOf (names.entry.domain.now ∷ names.entry.problem.now ∷ if_named (text_in asked.entry.plan)) name → IsTrue (F.is_unreadable files.old name) → IsUnread result }
{
    let pair = read_pair(alloc, files, names.domain, names.problem)?;
    let text = read_named(alloc, files, asked.plan)?;
    let files = ExplainedFiles {
        domain: NamedText {
            name: names.domain,
            text: &pair.domain,
        },
        problem: NamedText {
            name: names.problem,
            text: &pair.problem,
        },
        plan: named(asked.plan, &text),
    };
    let explanation = explain_files(alloc, files, asked.options)?;
    Ok(Report::Explain(explanation))
}

/// The text of a plan with its file's name, if there is one.
fn named<'a>(name: Option<&'a str>, text: &'a Option<Vec<u8>>) -> Option<NamedText<'a>>
    ensures text { explanations.text_in result ≡ items_in text.now }
    ensures named { option_map named_of result ≡ named_as (text_in name.entry) (items_in text.now) }
{
    match text {
        Some(text) => {
            let name = name.unwrap_or("");
            Some(NamedText { name, text })
        }
        None => None,
    }
}
