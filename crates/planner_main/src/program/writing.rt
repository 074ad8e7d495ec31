//! The single output path: results go to the files asked for, and then to standard output.
ghost use Rattle.std.specs.Prelude.{◌≡◌, IfErr, IfOk, IfSome, IsErr, IsTrue, None, OnOk, Some};
ghost use Rattle.std.specs.Option.{option_map};
ghost use Rattle.planner_main.specs.Asked.{outputs_in};
ghost use Rattle.printed_answers.specs.Reported as reported;
ghost use Rattle.planner_main.specs.Program.{CountsEither, HasNotFailed, IsReported, IsReportedPartly, fault_in};
ghost use Rattle.file_answers.specs.Files.{text_in};
ghost use Rattle.planner_main.specs.Solution.{IsBegun, WritesReport, cert_of, cert_text, in_file, plan_text};
ghost use Rattle.devices.specs.Written.{AreWritten};
ghost use Rattle.devices.specs.Devices.{CountsDevice};
ghost use Rattle.devices.specs.declared.device.IoFault.TheVariants.{NoMemory};
ghost use Rattle.planner_main.specs.Progress.{IsCertificateLine, IsFailedLineOf, IsWritingLine, SaysIf, failed_line, line_if, size_in, size_line, size_line_for};
ghost use Rattle.devices.specs.Progress.{AreSaid, stream};
ghost use Rattle.std.specs.String.{string_bytes};
ghost use Rattle.task.specs.Task.{task_of};
ghost use Rattle.certificate.specs.Certificate.{certificate_of};
ghost use Rattle.certificate_definitions.specs.CertificateNames.{certificate_text};

use crate::failures::{Failure, say};
use crate::program::counting::write_counted;
use crate::program::outputs::Outputs;
use certificate::{Cert, write_cert};
use devices::{Bytes, Document, Files, IoFault, Sink, write_all};
use printed_answers::{Report, json_text, report_text, said, status_of};
use solver::{Answer, Exceeded};
use std::alloc::{AllocError, Global};
use task::Task;

/// Writes the files asked for, the certificate first, and then the result to standard output, and frees the result. Returns the
/// exit status. The printed text is computed before any file is written.
///
/// If progress is asked for, the size of the written certificate is reported, and the name of a file that fails.
pub(super) fn write_result<F: Files, O: Sink, E: Sink>(
    alloc: Global,
    report: Report,
    outputs: Outputs<'_>,
    files: &mut F,
    out: &mut O,
    err: &mut E,
) -> Result<u8, Failure>
    requires { reported.IsReported report }
    ensures said { IfOk result (IsReported (WritesReport report (outputs_in outputs.entry))
        F.is_known (F.contents files.old) (F.contents files.new) (O.taken out.old) (O.taken out.new)) }
    ensures partly { IfErr result (λ _. IsReportedPartly (WritesReport report (outputs_in outputs.entry))
        F.is_known (F.contents files.old) (F.contents files.new) (O.taken out.old) (O.taken out.new)) }
    ensures unfailed { IfOk result (λ _. HasNotFailed (F.failures files.old) (F.failures files.new) (O.failures out.old) (O.failures out.new)) }
    ensures failures { IfErr result (CountsEither (F.failures files.old) (F.failures files.new) (O.failures out.old) (O.failures out.new)) }
    ensures no_text { IfErr result (λ failure. fault_in failure ≡ None) }
    ensures progress { AreSaid (IsWritingLine report (outputs_in outputs.entry)) E.may_lack_memory (stream (E.failures err.old) (E.taken err.old)) (stream (E.failures err.new) (E.taken err.new)) }
    ensures sized { IfOk result (λ _. SaysIf (size_line_for (text_in outputs.entry.cert) (cert_text report) outputs.entry.progress)
        E.may_lack_memory (stream (E.failures err.old) (E.taken err.old)) (stream (E.failures err.new) (E.taken err.new))) }
{
    let status = write_report(alloc, &report, outputs, files, out, err);
    drop(report);
    status
}

/// The same, without freeing the result.
fn write_report<F: Files, O: Sink, E: Sink>(
    alloc: Global,
    report: &Report,
    outputs: Outputs<'_>,
    files: &mut F,
    out: &mut O,
    err: &mut E,
) -> Result<u8, Failure>
    requires { reported.IsReported report.now }
    ensures said { IfOk result (IsReported (WritesReport report.now (outputs_in outputs.entry))
        F.is_known (F.contents files.old) (F.contents files.new) (O.taken out.old) (O.taken out.new)) }
    ensures partly { IfErr result (λ _. IsReportedPartly (WritesReport report.now (outputs_in outputs.entry))
        F.is_known (F.contents files.old) (F.contents files.new) (O.taken out.old) (O.taken out.new)) }
    ensures unfailed { IfOk result (λ _. HasNotFailed (F.failures files.old) (F.failures files.new) (O.failures out.old) (O.failures out.new)) }
    ensures failures { IfErr result (CountsEither (F.failures files.old) (F.failures files.new) (O.failures out.old) (O.failures out.new)) }
    ensures no_text { IfErr result (λ failure. fault_in failure ≡ None) }
    ensures progress { AreSaid (IsWritingLine report.now (outputs_in outputs.entry)) E.may_lack_memory (stream (E.failures err.old) (E.taken err.old)) (stream (E.failures err.new) (E.taken err.new)) }
    ensures sized { IfOk result (λ _. SaysIf (size_line_for (text_in outputs.entry.cert) (cert_text report.now) outputs.entry.progress)
        E.may_lack_memory (stream (E.failures err.old) (E.taken err.old)) (stream (E.failures err.new) (E.taken err.new))) }
{
    let text = report_text(alloc, report)?;
    let json = json_text(alloc, report, outputs.format)?;
    let cert = cert_text(alloc, report);
    let progress = outputs.progress;
    let cert_file = Target {
        alloc,
        name: outputs.cert,
        progress,
    };
    save_cert(&cert_file, &cert, files, err)?;
    let plan = plan_text(report, &text);
    let plan_file = Target {
        alloc,
        name: outputs.plan,
        progress,
    };
    save_or_say(&plan_file, &plan, files, err)?;
    write_all(out, said(&json, &text))?;
    Ok(status_of(report))
}

/// The file that a document is written to.
#[derive(Clone, Copy)]
struct Target<'a> {
    /// The allocator of the lines about it.
    alloc: Global,
    /// Its name; `None` if the document is not written.
    name: Option<&'a str>,
    /// Whether it is reported what happens to the file.
    progress: bool,
}

/// Writes the certificate as `save_or_say` does, and if progress is asked for, reports its size. If an allocation for that line
/// fails, the file is written, but nothing after it.
fn save_cert<F: Files, D: Document, E: Sink>(
    target: &Target<'_>,
    document: &Option<D>,
    files: &mut F,
    err: &mut E,
) -> Result<(), IoFault>
    ensures written { OnOk result (IsTrue F.is_known
        → AreWritten (F.contents files.old) (F.contents files.new) (in_file (text_in target.now.name) (option_map D.text document.now))) }
    ensures partly { IsErr result → IsBegun F.is_known (F.contents files.old) (F.contents files.new) (in_file (text_in target.now.name) (option_map D.text document.now)) }
    ensures failures { CountsDevice (F.failures files.old) (F.failures files.new) result }
    ensures progress { AreSaid (IsCertificateLine target.now.progress (text_in target.now.name) (option_map D.text document.now)) E.may_lack_memory (stream (E.failures err.old) (E.taken err.old)) (stream (E.failures err.new) (E.taken err.new)) }
    ensures sized { OnOk result (SaysIf (size_line_for (text_in target.now.name) (option_map D.text document.now) target.now.progress) E.may_lack_memory (stream (E.failures err.old) (E.taken err.old)) (stream (E.failures err.new) (E.taken err.new))) }
{
    match save(files, target.name, document) {
        Ok(Some(size)) => say_size(size, target, err),
        Ok(None) => Ok(()),
        Err(fault) => {
            say_failed(target, err);
            Err(fault)
        }
    }
}

/// Reports the size of the written certificate, if progress is asked for. The only error is running out of memory.
fn say_size<E: Sink>(size: u64, target: &Target<'_>, err: &mut E) -> Result<(), IoFault>
    ensures said { OnOk result (SaysIf (line_if target.now.progress (Some size)) E.may_lack_memory (stream (E.failures err.old) (E.taken err.old)) (stream (E.failures err.new) (E.taken err.new))) }
    ensures quiet { IsErr result → stream (E.failures err.new) (E.taken err.new) ≡ stream (E.failures err.old) (E.taken err.old) }
    ensures memory { IfErr result (λ fault. fault ≡ NoMemory) }
{
    if !target.progress {
        return Ok(());
    }
    let line = size_line(target.alloc, size)?;
    say(err, line.as_bytes());
    Ok(())
}

/// The line for a certificate of this size.
fn size_line(alloc: Global, size: u64) -> Result<String, AllocError>
    ensures { IfOk result (λ line. string_bytes line ≡ size_line size) }
{
    format!(in alloc; "progress=certificate bytes={size}\n")
}

/// Writes the document as `save` does. If that fails and progress is asked for, reports the file's name.
fn save_or_say<F: Files, D: Document, E: Sink>(
    target: &Target<'_>,
    document: &Option<D>,
    files: &mut F,
    err: &mut E,
) -> Result<(), IoFault>
    ensures written { OnOk result (IsTrue F.is_known
        → AreWritten (F.contents files.old) (F.contents files.new) (in_file (text_in target.now.name) (option_map D.text document.now))) }
    ensures partly { IsErr result → IsBegun F.is_known (F.contents files.old) (F.contents files.new) (in_file (text_in target.now.name) (option_map D.text document.now)) }
    ensures failures { CountsDevice (F.failures files.old) (F.failures files.new) result }
    ensures progress { AreSaid (IsFailedLineOf target.now.progress (text_in target.now.name)) E.may_lack_memory (stream (E.failures err.old) (E.taken err.old)) (stream (E.failures err.new) (E.taken err.new)) }
    ensures quiet { OnOk result (stream (E.failures err.new) (E.taken err.new) ≡ stream (E.failures err.old) (E.taken err.old)) }
{
    match save(files, target.name, document) {
        Ok(_) => Ok(()),
        Err(fault) => {
            say_failed(target, err);
            Err(fault)
        }
    }
}

/// Reports that the file with this name failed, if progress is asked for. If an allocation for the line fails, nothing is
/// reported.
fn say_failed<E: Sink>(target: &Target<'_>, err: &mut E)
    ensures { AreSaid (IsFailedLineOf target.now.progress (text_in target.now.name)) E.may_lack_memory (stream (E.failures err.old) (E.taken err.old)) (stream (E.failures err.new) (E.taken err.new)) }
{
    let Some(name) = target.name else { return };
    if !target.progress {
        return;
    }
    if let Ok(line) = failed_line(target.alloc, name) {
        say(err, line.as_bytes());
    }
}

/// The line for a file that failed.
fn failed_line(alloc: Global, name: &str) -> Result<String, AllocError>
    ensures { IfOk result (λ line. string_bytes line ≡ failed_line name.now) }
{
    format!(in alloc; "progress=failed file={name}\n")
}

/// Writes the document, if there is one, to the file with this name, if one is given. Returns the number of bytes written, if
/// any.
fn save<F: Files, D: Document>(
    files: &mut F,
    name: Option<&str>,
    document: &Option<D>,
) -> Result<Option<u64>, IoFault>
    ensures written { OnOk result (IsTrue F.is_known
        → AreWritten (F.contents files.old) (F.contents files.new) (in_file (text_in name.entry) (option_map D.text document.now))) }
    ensures partly { IsErr result → IsBegun F.is_known (F.contents files.old) (F.contents files.new) (in_file (text_in name.entry) (option_map D.text document.now)) }
    ensures failures { CountsDevice (F.failures files.old) (F.failures files.new) result }
    // The file is also created if a size is returned.
    ensures begun { IfOk result (λ size. IfSome size (λ _. IsBegun F.is_known (F.contents files.old) (F.contents files.new) (in_file (text_in name.entry) (option_map D.text document.now)))) }
    ensures counted { IfOk result (λ size. size ≡ size_in (text_in name.entry) (option_map D.text document.now)) }
{
    let Some(name) = name else { return Ok(None) };
    let Some(document) = document else {
        return Ok(None);
    };
    let size = write_counted(files, name, document)?;
    Ok(Some(size))
}

/// The text of the result's certificate, if it has one.
fn cert_text(alloc: Global, report: &Report) -> Option<CertText<'_>>
    ensures { option_map (λ it. certificate_text (task_of it.task.now) (certificate_of it.cert.now)) result ≡ cert_text report.now }
{
    match report {
        Report::Solve(solved) => match cert_of(&solved.answer) {
            Some(cert) => {
                let task = &solved.task;
                Some(CertText { alloc, task, cert })
            }
            None => None,
        },
        Report::Validate(_) | Report::Check(_) => None,
        Report::Explain(_) | Report::ExplainCheck(_) => None,
    }
}

/// The certificate of an answer, if it has one.
fn cert_of(answer: &Answer) -> Option<&Cert>
    ensures { option_map (λ cert. cert.now) result ≡ cert_of answer.now }
{
    match answer {
        Answer::Plan { cert, .. } => Some(cert),
        Answer::Unsolvable { cert } => Some(cert),
        Answer::Unknown(Exceeded::States { cert, .. }) => Some(cert),
        Answer::Unknown(Exceeded::Time { cert, .. }) => Some(cert),
        Answer::Unknown(Exceeded::Instances | Exceeded::Atoms) => None,
    }
}

/// The printed text, if it is a plan.
fn plan_text<'a>(report: &Report, text: &'a [u8]) -> Option<Bytes<'a>>
    requires { text.now ≡ reported.text_of report.now }
    ensures { option_map (λ bytes. bytes.0.now) result ≡ plan_text report.now }
{
    match report {
        Report::Solve(solved) => match &solved.answer {
            Answer::Plan { .. } => Some(Bytes(text)),
            Answer::Unsolvable { .. } | Answer::Unknown(_) => None,
        },
        Report::Validate(_) | Report::Check(_) => None,
        Report::Explain(_) | Report::ExplainCheck(_) => None,
    }
}

/// The text of a certificate of a task, written line by line.
#[derive(Clone, Copy)]
struct CertText<'a> {
    alloc: Global,
    task: &'a Task,
    cert: &'a Cert,
}

impl Document for CertText<'_> {
    ghost text = { λ it. certificate_text (task_of it.task.now) (certificate_of it.cert.now) };

    fn write_to<S: Sink>(&self, sink: &mut S) -> Result<(), IoFault> {
        write_cert(self.alloc, self.task, self.cert, sink)
    }
}
