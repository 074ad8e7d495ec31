//! The program.
ghost use Rattle.std.specs.Prelude.{◌≡◌, ℕ, ◌⊎◌, IfErr, IfOk, IfSome, IsTrue, List, false};
ghost use Rattle.command_line.specs.Orders.{IsCommand};
ghost use Rattle.command_line.specs.Versions as words;
ghost use Rattle.command_line.specs.View.{number_in, texts, request_of};
ghost use Rattle.solver.specs.Versions as solver;
ghost use Rattle.planner_main.specs.Failures.{device_line, is_failure, no_memory_line};
ghost use Rattle.planner_main.specs.Program.{Reports, ReportsFor, ReportsPartly, ReportsPartlyFor, Refuses, HasFailed, HasNotFailed, CountsEither, CountsFailure, NamesInput, NamesText, IsFaultFor, IsFound, IsOneOf, IsUnread, SaysOfWords, fault_in, inputs_of, texts_of};
ghost use Rattle.devices.specs.Texts.{AreKept};
ghost use Rattle.devices.specs.Devices.{IsWritten};
ghost use Rattle.planner_main.specs.Progress.{AsksForProgress, AsksForSearchProgress, Ends, HasEndedFor, HasSaidEnd, IsProgress, IsProgressOn, SaysAfter};
ghost use Rattle.devices.specs.Progress.{AreSaid, stream};
ghost use Rattle.file_answers.specs.StepLines.{is_traced};

mod acceptance;
mod counting;
mod explaining;
mod explaining_cert;
mod inputs;
mod outputs;
mod solution;
mod validation;
mod writing;

use crate::failures::{Failure, report_failure, report_words};
use acceptance::{CheckAsked, InputNames, report_of_check};
use command_line::{CertVersion, MaxCount, Order, read_words};
use devices::{Clock, Files, Sink};
use explaining::{ExplainAsked, report_of_explain};
use explaining_cert::report_of_cert;
use file_answers::{ExplainOptions, StepLines};
use inputs::PairNames;
use outputs::outputs_of;
use printed_answers::Report;
use solution::{SolveAsked, report_of_solve};
use solver::{Limits, MaxVersion};
use std::alloc::Global;
use validation::report_of_validate;
use writing::write_result;

/// The whole program: executes the order given by the words, with its answer on standard output and its faults on standard error,
/// and returns the exit status. The words are parsed by `read_words`.
///
/// `solve` prints an optimal plan, or that there is none. The numbers of listed states and of kept instances (those not
/// statically inapplicable) are limited, and the time may be, by the clock beside `err`. If the state limit is exceeded or the time is
/// over, it prints a lower bound of all plan costs; at the other limits nothing is claimed about plans. The certificate of the answer,
/// also of such a bound, is written to the file
/// of `--cert`, then a plan's text to the file of `--plan`, then the answer to standard output; if one of them fails, the later
/// ones are not touched, and neither is a file for which there is nothing to write. `validate` judges whether the plan solves the
/// task. `check` prints what the certificate shows: with a plan, read from the file of `--plan`, that it is optimal; otherwise
/// that no plan costs less, or that there is none. `explain` says what is wrong with a text or a plan, and where; if
/// nothing is, it summarizes the task. For a certificate it prints what `check` does, and what that means. At most 16,777,217 bytes of a file are read and taken as its whole text, and all files are
/// read before any fault in them is reported. The exception is the certificate: it is only opened then, and later read line by
/// line, to its end or its first fault, whatever its length.
///
/// | What comes | Standard output | Standard error | Status |
/// |---|---|---|---|
/// | a cheapest plan | its steps, a line each, and `; cost = N` | | 0 |
/// | there is no plan | `unsolvable` | | 10 |
/// | the limit of states is exceeded: each plan costs N or more | `unknown states, at least N` | | 11 |
/// | the time is over: each plan costs N or more | `unknown time, at least N` | | 11 |
/// | another limit is exceeded | `unknown instances` or `unknown atoms` | | 11 |
/// | the plan solves the task | `valid cost N` | | 0 |
/// | it does not | `not applicable step N` or `goal missed` | | 12 |
/// | the certificate is accepted | `optimal cost N`, `at least N` or `unsolvable` | | 0 |
/// | it is not | `not accepted CODE Name line L`, `not accepted 46 Unfair (ACTION OBJECT ..)`, `not accepted 56 DeadUnfair (ACTION OBJECT ..)` or `not accepted CODE Name` | | 12 |
/// | the words are no command, or ask for help | | what is wrong, or the help, and `optplan: nothing was done` | 2 |
/// | a file's text is refused | | `fault CODE Name in FILE at S..E` | 20 |
/// | `explain`: the certificate is accepted, or not | the line of `check`, and what it means in words | | 0 or 12 |
/// | `explain`: a text is refused | where and why, in some lines | | 20 |
/// | `explain`: the plan does not solve the task | the step or the goal, and why | | 12 |
/// | `explain`: it does | its steps and their costs | | 0 |
/// | `explain`: nothing is wrong with the task | what it holds | | 0 |
/// | `explain`: its ground task is too large | what it holds, and `unknown instances` or `unknown atoms` | | 11 |
/// | a file, or the standard output, fails | | `fault 61 Device` | 21 |
/// | memory is refused | | `fault 60 NoMemory` | 22 |
///
/// With `--json` a line of JSON takes the place of the text on standard output (`json_line`), with the same exit status. If
/// writing to a stream or a file fails, it has taken a prefix. A failure of standard error changes no status.
///
/// ```
/// // "domain.pddl" has `(define (domain path) ..)`, and "problem.pddl" has `(define (problem p) (:domain path) ..)`
/// let mut files = SystemFiles::new(&rt);
/// let (mut out, mut err) = (Memory::empty(alloc), Memory::empty(alloc));
/// let words = ["solve", "domain.pddl", "problem.pddl"];
/// let status = run(alloc, &words, &mut files, &mut out, &mut err);
/// // 0, and `out` has the plan: "(go a b)\n(go b c)\n; cost = 2\n"
/// ```
pub fn run<F: Files, O: Sink, E: Sink + Clock>(
    alloc: Global,
    words: &[&str],
    files: &mut F,
    out: &mut O,
    err: &mut E,
) -> u8
    // The order is carried out and its result printed, or the exit status says why not.
    ensures status { IsTrue (is_failure result)
        ⊎ Reports (texts words.now) F.is_known (F.contents files.old) (F.contents files.new) (O.taken out.old) (O.taken out.new) result }
    // Without `--progress`, standard error is unchanged when there is an answer. With it, lines come first, each of them true:
    // lower bounds of plan costs, the sizes of the task, of a listing that shows such a bound and of the certificate, and the option
    // that raises an exceeded limit. For the answer of a search the last line is that of the end; if a certificate file is named, the line with the certificate's size in bytes follows it.
    ensures quiet { (AsksForProgress (texts words.now) → ⊥) → is_failure result ≡ false → E.taken err.new ≡ E.taken err.old }
    ensures progress { is_failure result ≡ false → AreSaid (IsProgress (F.contents files.old) (texts words.now)) E.may_lack_memory (stream (E.failures err.old) (E.taken err.old)) (stream (E.failures err.new) (E.taken err.new)) }
    ensures ended { AsksForSearchProgress (texts words.now) → (result ≡ 0) ⊎ (result ≡ 10)
        → Ends (F.contents files.old) (F.contents files.new) F.is_known (texts words.now) E.may_lack_memory (stream (E.failures err.new) (E.taken err.new)) }

    // The exit status for words that are not a command occurs exactly for such words, unless an allocation for reading them
    // fails. The one for refused texts occurs only for such texts: `explain` prints the fault on standard output, as asked, and
    // the other commands print no answer with this status.
    ensures words { result ≡ 2 → IsCommand (texts words.now) → ⊥ }
    ensures no_command { (IsCommand (texts words.now) → ⊥) → (result ≡ 2) ⊎ (result ≡ 22) }
    ensures usage { result ≡ 2 → (O.taken out.new ≡ O.taken out.old) × AreKept (F.contents files.old) (F.contents files.new)
        × SaysOfWords (IsWritten E.may_lack_memory (E.failures err.old) (E.failures err.new) (E.taken err.old) (E.taken err.new)) }
    ensures refused { result ≡ 20 → Refuses (texts words.now) (F.contents files.old) (F.contents files.new)
        (O.taken out.old) (O.taken out.new) (SaysAfter (IsProgress (F.contents files.old) (texts words.now)) E.may_lack_memory (E.failures err.old) (E.failures err.new) (E.taken err.old) (E.taken err.new))
        ⊎ (Reports (texts words.now) F.is_known (F.contents files.old) (F.contents files.new) (O.taken out.old) (O.taken out.new) result × AreSaid (IsProgress (F.contents files.old) (texts words.now)) E.may_lack_memory (stream (E.failures err.old) (E.taken err.old)) (stream (E.failures err.new) (E.taken err.new))) }

    // The exit status for a device failure occurs exactly if a device failed. Part of an answer may have been printed.
    ensures unfailed { (result ≡ 21 → ⊥) → HasNotFailed (F.failures files.old) (F.failures files.new) (O.failures out.old) (O.failures out.new) }
    ensures device { result ≡ 21 → HasFailed (F.failures files.old) (F.failures files.new) (O.failures out.old) (O.failures out.new)
        × ReportsPartly (texts words.now) F.is_known (F.contents files.old) (F.contents files.new) (O.taken out.old) (O.taken out.new)
        × SaysAfter (IsProgress (F.contents files.old) (texts words.now)) E.may_lack_memory (E.failures err.old) (E.failures err.new) (E.taken err.old) (E.taken err.new) device_line }
    // All files are opened before any fault in their texts is reported.
    ensures unread { (name : List ℕ) → NamesInput (texts words.now) name → IsTrue (F.is_missing files.old name)
        → (result ≡ 21) ⊎ (result ≡ 22) }
    // All texts except the certificate are read before any fault in them is reported.
    ensures unreadable { (name : List ℕ) → NamesText (texts words.now) name → IsTrue (F.is_unreadable files.old name)
        → (result ≡ 21) ⊎ (result ≡ 22) }
    ensures memory { result ≡ 22 → ReportsPartly (texts words.now) F.is_known (F.contents files.old) (F.contents files.new) (O.taken out.old) (O.taken out.new)
        × SaysAfter (IsProgress (F.contents files.old) (texts words.now)) E.may_lack_memory (E.failures err.old) (E.failures err.new) (E.taken err.old) (E.taken err.new) no_memory_line }
{
    match read_words(alloc, words) {
        Err(fault) => report_words(alloc, fault, err),
        Ok(order) => match carry_out(alloc, order, files, out, err) {
            Ok(status) => status,
            Err(failure) => report_failure(alloc, failure, err),
        },
    }
}

/// Carries out the order: computes the result, then prints it. Returns the exit status.
fn carry_out<F: Files, O: Sink, E: Sink + Clock>(
    alloc: Global,
    order: Order<'_>,
    files: &mut F,
    out: &mut O,
    err: &mut E,
) -> Result<u8, Failure>
    ensures said { IfOk result (ReportsFor (request_of order.entry) F.is_known (F.contents files.old) (F.contents files.new) (O.taken out.old) (O.taken out.new)) }
    ensures refused { IfErr result (λ failure. IfSome (fault_in failure) (λ fault. IsFaultFor (F.contents files.old) (request_of order.entry) fault
        × (O.taken out.new ≡ O.taken out.old) × AreKept (F.contents files.old) (F.contents files.new))) }
    ensures partly { IfErr result (λ failure. ReportsPartlyFor (request_of order.entry) F.is_known (F.contents files.old) (F.contents files.new) (O.taken out.old) (O.taken out.new)) }
    ensures unfailed { IfOk result (λ _. HasNotFailed (F.failures files.old) (F.failures files.new) (O.failures out.old) (O.failures out.new)) }
    ensures failures { IfErr result (CountsEither (F.failures files.old) (F.failures files.new) (O.failures out.old) (O.failures out.new)) }
    ensures unread { (name : List ℕ) → IsOneOf (inputs_of (request_of order.entry)) name → IsTrue (F.is_missing files.old name) → IsUnread result }
    ensures unreadable { (name : List ℕ) → IsOneOf (texts_of (request_of order.entry)) name → IsTrue (F.is_unreadable files.old name) → IsUnread result }
    ensures progress { AreSaid (IsProgressOn (F.contents files.old) (request_of order.entry)) E.may_lack_memory (stream (E.failures err.old) (E.taken err.old)) (stream (E.failures err.new) (E.taken err.new)) }
    ensures ended { IfOk result (HasSaidEnd (F.contents files.old) (F.contents files.new) F.is_known (request_of order.entry) E.may_lack_memory (stream (E.failures err.new) (E.taken err.new))) }
{
    let report = report_of(alloc, order, files, err)?;
    write_result(alloc, report, outputs_of(order), files, out, err)
}

/// Computes the result of the order.
fn report_of<F: Files, E: Sink + Clock>(
    alloc: Global,
    order: Order<'_>,
    files: &mut F,
    err: &mut E,
) -> Result<Report, Failure>
    ensures found { IsFound (F.contents files.old) (F.is_missing files.old) (F.is_unreadable files.old) (request_of order.entry) result }
    ensures kept { AreKept (F.contents files.old) (F.contents files.new) }
    ensures unfailed { IfOk result (λ _. F.failures files.new ≡ F.failures files.old) }
    ensures failures { IfErr result (CountsFailure (F.failures files.old) (F.failures files.new)) }
    ensures progress { AreSaid (IsProgressOn (F.contents files.old) (request_of order.entry)) E.may_lack_memory (stream (E.failures err.old) (E.taken err.old)) (stream (E.failures err.new) (E.taken err.new)) }
    ensures ended { IfOk result (HasEndedFor (request_of order.entry) E.may_lack_memory (E.failures err.new) (E.taken err.new)) }
{
    match order {
        Order::Validate {
            domain,
            problem,
            plan,
            ..
        } => {
            let names = PairNames { domain, problem };
            report_of_validate(alloc, names, plan, files)
        }
        Order::Solve {
            domain,
            problem,
            states,
            instances,
            seconds,
            cert_version,
            progress,
            ..
        } => {
            let limits = limits_of(states, instances, seconds, cert_version);
            let names = PairNames { domain, problem };
            let asked = SolveAsked {
                names,
                limits,
                progress,
            };
            report_of_solve(alloc, asked, files, err)
        }
        Order::Check {
            domain,
            problem,
            cert,
            plan,
            instances,
            progress,
            ..
        } => {
            let instances = instances.number();
            let names = InputNames {
                domain,
                problem,
                cert,
                plan,
            };
            let asked = CheckAsked {
                names,
                instances,
                progress,
            };
            report_of_check(alloc, asked, files, err)
        }
        Order::Explain {
            domain,
            problem,
            plan,
            trace,
            instances,
            ..
        } => {
            let max_instances = instances.number();
            let steps = steps_of(trace);
            let options = ExplainOptions {
                max_instances,
                steps,
            };
            let asked = ExplainAsked { plan, options };
            let names = PairNames { domain, problem };
            report_of_explain(alloc, names, asked, files)
        }
        Order::ExplainCert {
            domain,
            problem,
            cert,
            plan,
            instances,
            ..
        } => {
            let most = instances.number();
            let names = InputNames {
                domain,
                problem,
                cert,
                plan,
            };
            let asked = CheckAsked {
                names,
                instances: most,
                progress: false,
            };
            report_of_cert(alloc, asked, files)
        }
    }
}

/// What is said of the steps of a plan.
fn steps_of(trace: bool) -> StepLines
    ensures { is_traced result ≡ trace }
{
    if trace {
        StepLines::Trace
    } else {
        StepLines::Costs
    }
}

/// The limits of a search.
fn limits_of(
    states: MaxCount,
    instances: MaxCount,
    seconds: Option<MaxCount>,
    cert_version: CertVersion,
) -> Limits
    ensures states { result.states ≡ states.number }
    ensures instances { result.instances ≡ instances.number }
    ensures seconds { result.seconds ≡ number_in seconds }
    ensures version { solver.number_of result.version ≡ words.number_of cert_version }
{
    let limits = Limits::new(states.number(), instances.number()).unwrap();
    let limits = limits.up_to_version(version_of(cert_version));
    match seconds {
        Some(most) => limits.within_seconds(most.number()),
        None => limits,
    }
}

/// The same version, as a limit of the search.
fn version_of(version: CertVersion) -> MaxVersion
    ensures { solver.number_of result ≡ words.number_of version }
{
    match version {
        CertVersion::Two => MaxVersion::Two,
        CertVersion::Three => MaxVersion::Three,
        CertVersion::Four => MaxVersion::Four,
    }
}
