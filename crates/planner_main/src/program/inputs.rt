//! The texts of the input files.
ghost use Rattle.std.specs.Prelude.{◌≡◌, ℕ, Err, IfOk, IsErr, IsTrue, List};
ghost use Rattle.devices.specs.Texts.{AreKept, IsText, items_in};
ghost use Rattle.file_answers.specs.Files.{text_in};
ghost use Rattle.planner_main.specs.Program.{IsOneOf, IsTextIfNamed, if_named};
ghost use Rattle.devices.specs.declared.device.IoFault.TheVariants.{Device};
ghost use Rattle.devices.specs.Devices.{CountsDevice};

use devices::{Files, IoFault, read_file};
use std::alloc::Global;

/// The names of a domain file and a problem file.
#[derive(Clone, Copy)]
pub(super) struct PairNames<'a> {
    /// The domain file.
    pub(super) domain: &'a str,
    /// The problem file.
    pub(super) problem: &'a str,
}

/// The texts of a domain file and a problem file.
pub(super) struct TaskTexts {
    /// The domain file's text.
    pub(super) domain: Vec<u8>,
    /// The problem file's text.
    pub(super) problem: Vec<u8>,
}

impl Drop for TaskTexts {
    fn drop(self) {
        let Self {
            domain: _,
            problem: _,
        } = self;
    }
}

/// The texts of two files.
pub(super) fn read_pair<F: Files>(
    alloc: Global,
    files: &mut F,
    domain: &str,
    problem: &str,
) -> Result<TaskTexts, IoFault>
    ensures domain { IfOk result (λ pair. IsText (F.contents files.old) domain.now pair.domain.items) }
    ensures problem { IfOk result (λ pair. IsText (F.contents files.old) problem.now pair.problem.items) }
    ensures kept { AreKept (F.contents files.old) (F.contents files.new) }
    ensures still { (other : List ℕ) → F.is_missing files.new other ≡ F.is_missing files.old other }
    ensures failures { CountsDevice (F.failures files.old) (F.failures files.new) result }
    ensures missing { IsTrue (F.is_missing files.old domain.now) → result ≡ Err Device }
    ensures unread { IsTrue (F.is_missing files.old problem.now) → IsErr result }
    ensures as_readable { (other : List ℕ) → F.is_unreadable files.new other ≡ F.is_unreadable files.old other }
    ensures domain_failing { IsTrue (F.is_unreadable files.old domain.now) → IsErr result }
    ensures problem_failing { IsTrue (F.is_unreadable files.old problem.now) → IsErr result }
{
    let domain = read_file(alloc, files, domain)?;
    let problem = read_file(alloc, files, problem)?;
    Ok(TaskTexts { domain, problem })
}

/// The text of a file, if one is named.
pub(super) fn read_named<F: Files>(
    alloc: Global,
    files: &mut F,
    name: Option<&str>,
) -> Result<Option<Vec<u8>>, IoFault>
    ensures text { IfOk result (λ text. IsTextIfNamed (F.contents files.old) (text_in name.entry) (items_in text)) }
    ensures kept { AreKept (F.contents files.old) (F.contents files.new) }
    ensures failures { CountsDevice (F.failures files.old) (F.failures files.new) result }
    ensures unread { (other : List ℕ) → IsOneOf (if_named (text_in name.entry)) other → IsTrue (F.is_missing files.old other) → IsErr result }
    ensures unreadable { (other : List ℕ) → IsOneOf (if_named (text_in name.entry)) other → IsTrue (F.is_unreadable files.old other) → IsErr result }
{
    match name {
        Some(name) => Ok(Some(read_file(alloc, files, name)?)),
        None => Ok(None),
    }
}
