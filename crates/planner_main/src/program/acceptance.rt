//! `check`: what a certificate shows, from files.
ghost use Rattle.std.specs.Prelude.{◌≡◌, ℕ, IfErr, IfOk, IfSome, IsErr, IsTrue, List, ◌∷◌, Option};
ghost use Rattle.cert_checker.specs.Reading.{CountsRefusal, IsFresh};
ghost use Rattle.file_answers.specs.Checked.{IsChecked};
ghost use Rattle.file_answers.specs.SaidOf.{IsCheckLineOf};
ghost use Rattle.model.specs.Files.{IsTaskOf};
ghost use Rattle.devices.specs.Progress.{AreSaid, stream};
ghost use Rattle.planner_main.specs.Progress.{IsCheckingLine};
ghost use Rattle.task.specs.Task.{task_of};
ghost use Rattle.certificate_reader.specs.Reader.{source_of};
ghost use Rattle.file_answers.specs.Inputs.{IsInputFault};
ghost use Rattle.file_answers.specs.Files.{text_in, reported_in};
ghost use Rattle.file_answers.specs.declared.checking.Checked.{Checked};
ghost use Rattle.printed_answers.specs.declared.reports.Report.TheVariants.{Check};
ghost use Rattle.devices.specs.Texts.{AreKept, items_in};
ghost use Rattle.planner_main.specs.Program.{CountsFailure, IsCheckOn, IsCheckedIn, IsOneOf, IsUnread, OnInputs, fault_in, if_named};
ghost use Rattle.devices.specs.Devices.{IsKept};

use crate::failures::Failure;
use crate::program::inputs::{TaskTexts, read_named, read_pair};
use certificate::CertReader;
use devices::{Files, Sink, Source};
use file_answers::{CheckInputs, Checked, FileFault, TaskFiles, check_files, check_files_and_say};
use printed_answers::{Report, failure_of};
use std::alloc::Global;

/// The names of the input files.
#[derive(Clone, Copy)]
pub(super) struct InputNames<'a> {
    /// The domain file.
    pub(super) domain: &'a str,
    /// The problem file.
    pub(super) problem: &'a str,
    /// The certificate file.
    pub(super) cert: &'a str,
    /// The plan file, if any.
    pub(super) plan: Option<&'a str>,
}

/// The files and options of `check`.
#[derive(Clone, Copy)]
pub(super) struct CheckAsked<'a> {
    /// The input files.
    pub(super) names: InputNames<'a>,
    /// The maximum number of instances that may be kept.
    pub(super) instances: u32,
    /// Whether the progress of reading it is reported.
    pub(super) progress: bool,
}

/// The texts of the files that are read before the certificate, and the options of `check`.
struct InputTexts<'a> {
    pair: TaskTexts,
    plan: Option<Vec<u8>>,
    asked: CheckAsked<'a>,
}

impl Drop for InputTexts<'_> {
    fn drop(self) {
        let Self {
            pair: _,
            plan: _,
            asked: _,
        } = self;
    }
}

/// What the certificate in a file shows about the task of two files, and about the plan in a third, if one is named. The
/// certificate is opened before the plan is read, and is read last.
///
/// If progress is asked for, it reports how much of the certificate has been read.
pub(super) fn report_of_check<F: Files, E: Sink>(
    alloc: Global,
    asked: CheckAsked<'_>,
    files: &mut F,
    err: &mut E,
) -> Result<Report, Failure>
    ensures report { IfOk result (IsCheckOn (F.contents files.old) asked.entry.names.domain.now asked.entry.names.problem.now asked.entry.names.cert.now (text_in asked.entry.names.plan) asked.entry.instances) }
    ensures refused { IfErr result (λ failure. IfSome (fault_in failure) (λ fault.
        OnInputs (F.contents files.old) asked.entry.names.domain.now asked.entry.names.problem.now (text_in asked.entry.names.plan) (λ d p l. IsInputFault d p l fault))) }
    ensures kept { AreKept (F.contents files.old) (F.contents files.new) }
    ensures unfailed { IfOk result (λ _. F.failures files.new ≡ F.failures files.old) }
    ensures failures { IfErr result (CountsFailure (F.failures files.old) (F.failures files.new)) }
    ensures unread { (name : List ℕ) → IsOneOf (asked.entry.names.domain.now ∷ asked.entry.names.problem.now ∷ asked.entry.names.cert.now ∷ if_named (text_in asked.entry.names.plan)) name
        → IsTrue (F.is_missing files.old name) → IsUnread result }
    ensures unreadable { (name : List ℕ) → IsOneOf (asked.entry.names.domain.now ∷ asked.entry.names.problem.now ∷ if_named (text_in asked.entry.names.plan)) name
        → IsTrue (F.is_unreadable files.old name) → IsUnread result }
    ensures progress { AreSaid (IsCheckingLine (F.contents files.old) asked.entry.names.domain.now asked.entry.names.problem.now asked.entry.names.cert.now asked.entry.progress) E.may_lack_memory (stream (E.failures err.old) (E.taken err.old)) (stream (E.failures err.new) (E.taken err.new)) }
{
    let pair = read_pair(alloc, files, asked.names.domain, asked.names.problem)?;
    let input = files.open(asked.names.cert)?;
    let plan = read_named(alloc, files, asked.names.plan)?;
    let texts = InputTexts { pair, plan, asked };
    let mut cert = CertReader::new(alloc, input);
    let report = check_texts(alloc, &texts, &mut cert, err);
    files.finish(cert.into_source());
    report
}

/// What the certificate shows, read by a new reader.
fn check_texts<R: Source, E: Sink>(
    alloc: Global,
    texts: &InputTexts<'_>,
    cert: &mut CertReader<R>,
    err: &mut E,
) -> Result<Report, Failure>
    requires { IsFresh cert.old }
    ensures report { (known : Option (List ℕ)) → IsKept known (R.remaining (source_of cert.old))
        → IfOk result (λ found. (c : Checked) × (found ≡ Check c)
        × IsCheckedIn known texts.now.pair.domain.items texts.now.pair.problem.items (items_in texts.now.plan) texts.now.asked.instances (task_of c.task) c.answer) }
    ensures refused { IfErr result (λ failure. IfSome (fault_in failure) (IsInputFault texts.now.pair.domain.items texts.now.pair.problem.items (items_in texts.now.plan))) }
    ensures unfailed { IfOk result (λ _. R.failures (source_of cert.new) ≡ R.failures (source_of cert.old)) }
    ensures failures { IfErr result (CountsFailure (R.failures (source_of cert.old)) (R.failures (source_of cert.new))) }
    ensures progress { AreSaid (λ line. IsTrue texts.now.asked.progress × IsCheckLineOf texts.now.pair.domain.items texts.now.pair.problem.items (R.remaining (source_of cert.old)) line) E.may_lack_memory (stream (E.failures err.old) (E.taken err.old)) (stream (E.failures err.new) (E.taken err.new)) }
{
    let checked = checked(alloc, texts, cert, err)?;
    match failure_of(&checked.answer) {
        Some(fault) => Err(Failure::Device(fault)),
        None => Ok(Report::Check(checked)),
    }
}

/// The checker's answer to the certificate.
fn checked<R: Source, E: Sink>(
    alloc: Global,
    texts: &InputTexts<'_>,
    cert: &mut CertReader<R>,
    err: &mut E,
) -> Result<Checked, FileFault>
    requires { IsFresh cert.old }
    ensures task { IfOk result (λ c. IsTaskOf texts.now.pair.domain.items texts.now.pair.problem.items (task_of c.task)) }
    ensures answer { IfOk result (λ c. IsChecked R.remaining (task_of c.task) cert.old cert.new (items_in texts.now.plan) texts.now.asked.instances c.answer) }
    ensures failures { IfOk result (λ c. CountsRefusal (R.failures (source_of cert.old)) (R.failures (source_of cert.new)) c.answer) }
    ensures refused { IfErr result (λ fault. IfSome (reported_in fault) (IsInputFault texts.now.pair.domain.items texts.now.pair.problem.items (items_in texts.now.plan))) }
    ensures unread { IsErr result → cert.new ≡ cert.old }
    ensures progress { AreSaid (λ line. IsTrue texts.now.asked.progress × IsCheckLineOf texts.now.pair.domain.items texts.now.pair.problem.items (R.remaining (source_of cert.old)) line) E.may_lack_memory (stream (E.failures err.old) (E.taken err.old)) (stream (E.failures err.new) (E.taken err.new)) }
{
    let inputs = CheckInputs {
        task: TaskFiles {
            domain: &texts.pair.domain,
            problem: &texts.pair.problem,
        },
        plan: slice_in(&texts.plan),
        max_instances: texts.asked.instances,
    };
    if texts.asked.progress {
        check_files_and_say(alloc, inputs, cert, err)
    } else {
        check_files(alloc, inputs, cert)
    }
}

/// The bytes of a text, if there is one.
fn slice_in(text: &Option<Vec<u8>>) -> Option<&[u8]>
    ensures { text_in result ≡ items_in text.now }
{
    match text {
        Some(text) => Some(text.as_slice()),
        None => None,
    }
}
