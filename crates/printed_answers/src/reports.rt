//! Results of the program, and how they are printed: as text, or as a JSON object on a line.
ghost use Rattle.std.specs.Prelude.{◌≡◌, ◌++◌, IfOk, None, Option, Some, codes, if◌then◌else◌, unwrap_or};
ghost use Rattle.std.specs.Option.{option_map};
ghost use Rattle.std.specs.String.{string_bytes};
ghost use Rattle.printed_answers.specs.JsonText.{object_text};
ghost use Rattle.printed_answers.specs.Objects.{line_of_members};
ghost use Rattle.printed_answers.specs.Reported.{IsReported, is_json, of_report, text_of};

use crate::answer::answer_text;
use crate::check::checked_line;
use crate::explained_check::{ExplainedCheck, explained_object, explained_text};
use crate::explanations::explanation_object;
use crate::objects::{answer_object, checked_object, verdict_object};
use crate::verdict::verdict_line;
use faults::NoMemory;
use file_answers::{Checked, Explanation, Solved};
use std::alloc::{AllocError, Global};
use validator::Verdict;

/// A result of the program.
#[derive(Drop)]
pub enum Report {
    /// For a task: an optimal plan, that there is none, or the exceeded limit.
    Solve(Solved),
    /// For a plan: the verdict.
    Validate(Verdict),
    /// For a certificate: what it shows, or its refusal.
    Check(Checked),
    /// For files: an explanation.
    Explain(Explanation),
    /// For a certificate: what it shows, or its refusal, in words.
    ExplainCheck(ExplainedCheck),
}

/// The format of the standard output.
#[derive(Clone, Copy)]
pub enum Format {
    /// A text: a plan, or lines.
    Text,
    /// An object of JSON, on a line.
    Json,
}

/// The result as a JSON object, in compact text with its keys in bytewise order. A refusal for want of memory or by a device does
/// not occur here. The program prints it with `--json`, followed by LF.
///
/// | what was found out | text |
/// |---|---|
/// | a cheapest plan | `{"command":"solve","cost":6,"result":"plan","steps":["(hop a b)","(hop b c)"]}` |
/// | there is no plan | `{"command":"solve","result":"unsolvable"}` |
/// | the limit of states is exceeded | `{"bound":6,"command":"solve","reason":"states","result":"unknown"}` |
/// | another limit is exceeded | `{"command":"solve","reason":"instances","result":"unknown"}`, or `"atoms"` |
/// | the plan solves the task | `{"command":"validate","cost":6,"result":"valid"}` |
/// | it does not | `{"command":"validate","result":"not applicable","step":1}`, or `"goal missed"` and no step |
/// | the certificate is accepted | `{"command":"check","cost":6,"result":"optimal"}`, or `"at least"`, or `"unsolvable"` and no cost |
/// | it is refused | `{"code":50,"command":"check","name":"SuccessorDearer","result":"not accepted"}` |
/// | `explain`: a fault | `{"code":17,"column":58,"command":"explain","file":"domain.pddl","further":[],"hints":[],"length":9,"line":15,"name":"UnknownName","result":"fault","text":".."}` |
/// | `explain`: a verdict | `{"command":"explain","cost":6,"result":"valid","text":".."}`, or `"goal missed"` and no cost, or `"not applicable"` with its `step` and where this is, as of a fault |
/// | `explain`: a certificate | as of `check`, with `"explain"` and with `"text"` |
/// | `explain`: a task | `{"actions":1,"atoms":2,"command":"explain","functions":0,"instances":1,"notes":[],"objects":0,"predicates":2,"result":"task","text":"..","types":1}`, or `"unknown"` with the `reason` `"instances"` or `"atoms"` in place of both |
///
/// # Errors
/// An allocation failed.
pub fn json_line(alloc: Global, report: &Report) -> Result<String, NoMemory>
    requires { IsReported report.now }
    ensures { IfOk result (λ line. string_bytes line ≡ object_text (of_report report.now)) }
{
    let text = match report {
        Report::Solve(solved) => answer_object(alloc, &solved.task, &solved.answer),
        Report::Validate(verdict) => verdict_object(alloc, *verdict),
        Report::Check(checked) => checked_object(alloc, &checked.answer),
        Report::Explain(explanation) => explanation_object(alloc, explanation),
        Report::ExplainCheck(explained) => explained_object(alloc, explained),
    };
    Ok(text?)
}

/// The result as text: a plan, a line, or lines. A refusal for want of memory or by a device does not occur
/// here.
///
/// # Errors
/// An allocation failed.
pub fn report_text(alloc: Global, report: &Report) -> Result<Vec<u8>, NoMemory>
    requires { IsReported report.now }
    ensures { IfOk result (λ text. text.items ≡ text_of report.now) }
{
    match report {
        Report::Solve(solved) => Ok(answer_text(alloc, &solved.task, &solved.answer)?),
        Report::Validate(verdict) => Ok(verdict_line(alloc, *verdict)?.into_bytes()),
        Report::Check(checked) => {
            Ok(checked_line(alloc, &checked.task, &checked.answer)?.into_bytes())
        }
        Report::Explain(explanation) => Ok(Vec::from_slice(alloc, explanation.text.as_bytes())?),
        Report::ExplainCheck(explained) => Ok(explained_text(alloc, explained)?.into_bytes()),
    }
}

/// The JSON object made by `json_line`, followed by LF, if that is the format. A refusal for want of memory or by a device does
/// not occur here.
///
/// # Errors
/// An allocation failed.
pub fn json_text(alloc: Global, report: &Report, format: Format) -> Result<Option<String>, NoMemory>
    requires { IsReported report.now }
    ensures { IfOk result (λ line. option_map string_bytes line ≡ (if is_json format then Some (line_of_members (of_report report.now)) else None)) }
{
    match format {
        Format::Text => Ok(None),
        Format::Json => Ok(Some(on_a_line(json_line(alloc, report)?)?)),
    }
}

/// The object as a line.
fn on_a_line(object: String) -> Result<String, AllocError>
    ensures { IfOk result (λ line. string_bytes line ≡ string_bytes object ++ codes "\n") }
{
    let mut line = object;
    line.push('\n')?;
    Ok(line)
}

/// The content of the standard output: the JSON line if there is one, otherwise the text.
pub fn said<'a>(json: &'a Option<String>, text: &'a [u8]) -> &'a [u8]
    ensures { result.now ≡ unwrap_or (option_map string_bytes json.now) text.now }
{
    match json {
        Some(line) => line.as_bytes(),
        None => text,
    }
}
