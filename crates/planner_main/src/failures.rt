//! What the program prints without an answer: lines on standard error, with their exit statuses.
ghost use Rattle.std.specs.Prelude.{◌≡◌, ◌⊎◌, ◌++◌, ℕ, IfOk, IsTrue, List};
ghost use Rattle.std.specs.String.{string_bytes};
ghost use Rattle.command_line.specs.View.{IsOfWords};
ghost use Rattle.planner_main.specs.Failures.{is_failure, line_of_fault, no_memory_line, nothing_done_line};
ghost use Rattle.file_answers.specs.Files.{fault_at};
ghost use Rattle.planner_main.specs.Program.{IsReportedOfWords, IsReportedOn};
ghost use Rattle.devices.specs.Devices.{IsWritten};

use command_line::{WordsFault, text_of};
use devices::{IoFault, Sink, write_all};
use faults::{Code, NoMemory, Span};
use file_answers::{File, FileFault};
use printed_answers::REFUSED;
use std::alloc::{AllocError, Global};

/// The exit status if the words are not a command.
const WRONG_WORDS: u8 = 2;

/// The exit status if a file or the standard output could not be opened, read or written.
const DEVICE: u8 = 21;

/// The exit status if an allocation failed.
const NO_MEMORY: u8 = 22;

/// The last line if the words are not a command.
const NOTHING_DONE: &str = "optplan: nothing was done\n";

/// Why the program has no answer.
#[derive(Clone, Copy)]
pub(crate) enum Failure {
    /// A file's text is refused, or an allocation failed.
    Text(FileFault),
    /// A device failed, or an allocation failed.
    Device(IoFault),
}

impl From<FileFault> for Failure {
    ghost use Rattle.std.specs.Prelude.{◌≡◌};
    ghost use Rattle.planner_main.specs.declared.failures.Failure.TheVariants.{Text};

    ghost from_gives = { λ fault failure. failure ≡ Text fault };

    fn from(fault: FileFault) -> Failure {
        Failure::Text(fault)
    }
}

impl From<IoFault> for Failure {
    ghost use Rattle.std.specs.Prelude.{◌≡◌};
    ghost use Rattle.planner_main.specs.declared.failures.Failure.TheVariants.{Device};

    ghost from_gives = { λ fault failure. failure ≡ Device fault };

    fn from(fault: IoFault) -> Failure {
        Failure::Device(fault)
    }
}

impl From<NoMemory> for Failure {
    ghost use Rattle.std.specs.Prelude.{◌≡◌};
    ghost use Rattle.devices.specs.declared.device.IoFault.TheVariants.{NoMemory};
    ghost use Rattle.planner_main.specs.declared.failures.Failure.TheVariants.{Device};

    ghost from_gives = { λ _ failure. failure ≡ Device NoMemory };

    fn from(_error: NoMemory) -> Failure {
        Failure::Device(IoFault::NoMemory)
    }
}

/// Reports a failure on standard error, and returns its exit status. A failure to report changes no status.
pub(crate) fn report_failure<E: Sink>(alloc: Global, failure: Failure, err: &mut E) -> u8
    ensures failure { IsTrue (is_failure result) }
    // If an allocation for the line fails, that failure is reported.
    ensures said { IsReportedOn failure (IsWritten E.may_lack_memory (E.failures err.old) (E.failures err.new) (E.taken err.old) (E.taken err.new)) result }
{
    match failure {
        Failure::Text(FileFault::At { file, code, span }) => {
            report_fault(alloc, file, code, span, err)
        }
        Failure::Device(IoFault::Device) => {
            say(err, b"fault 61 Device\n");
            DEVICE
        }
        Failure::Text(FileFault::NoMemory) | Failure::Device(IoFault::NoMemory) => {
            report_no_memory(err)
        }
    }
}

/// Reports the fault of a file's text.
fn report_fault<E: Sink>(alloc: Global, file: File, code: Code, span: Span, err: &mut E) -> u8
    ensures { ((result ≡ REFUSED) × IsWritten E.may_lack_memory (E.failures err.old) (E.failures err.new) (E.taken err.old) (E.taken err.new) (line_of_fault (fault_at file code span)))
        ⊎ ((result ≡ NO_MEMORY) × IsWritten E.may_lack_memory (E.failures err.old) (E.failures err.new) (E.taken err.old) (E.taken err.new) no_memory_line) }
{
    match fault_line(alloc, file, code, span) {
        Ok(line) => {
            say(err, line.as_bytes());
            REFUSED
        }
        Err(AllocError) => report_no_memory(err),
    }
}

/// The line of a fault.
fn fault_line(alloc: Global, file: File, code: Code, span: Span) -> Result<String, AllocError>
    ensures { IfOk result (λ line. string_bytes line ≡ line_of_fault (fault_at file code span)) }
{
    let number = code.number();
    let name = code.name();
    let (start, end) = (span.start, span.end);
    format!(in alloc; "fault {number} {name} in {file} at {start}..{end}\n")
}

/// Reports that an allocation failed, without allocating: the exit status.
pub fn report_no_memory<E: Sink>(err: &mut E) -> u8
    ensures status { result ≡ NO_MEMORY }
    ensures line { IsWritten E.may_lack_memory (E.failures err.old) (E.failures err.new) (E.taken err.old) (E.taken err.new) no_memory_line }
{
    say(err, b"fault 60 NoMemory\n");
    NO_MEMORY
}

/// Writes these bytes, as far as the stream takes them.
pub(crate) fn say<E: Sink>(err: &mut E, bytes: &[u8])
    ensures { IsWritten E.may_lack_memory (E.failures err.old) (E.failures err.new) (E.taken err.old) (E.taken err.new) bytes.now }
{
    let _ = write_all(err, bytes);
}

/// Reports what is wrong with the words, or the help that they ask for, and that nothing was done: the exit status.
pub(crate) fn report_words<E: Sink>(alloc: Global, fault: WordsFault, err: &mut E) -> u8
    ensures { IsReportedOfWords fault (IsWritten E.may_lack_memory (E.failures err.old) (E.failures err.new) (E.taken err.old) (E.taken err.new)) result }
{
    match words_text(alloc, &fault) {
        Ok(text) => {
            say(err, text.as_bytes());
            WRONG_WORDS
        }
        Err(AllocError) => report_no_memory(err),
    }
}

/// The fault of the words as text, followed by the last line.
fn words_text(alloc: Global, fault: &WordsFault) -> Result<String, AllocError>
    ensures words { IfOk result (λ _. IsOfWords fault.now) }
    ensures text { IfOk result (λ said. (text : List ℕ) × (string_bytes said ≡ text ++ nothing_done_line)) }
{
    match fault {
        WordsFault::Words(_) => {
            let mut text = text_of(alloc, fault)?;
            text.push_str(NOTHING_DONE)?;
            Ok(text)
        }
        WordsFault::NoMemory => Err(AllocError),
    }
}
