//! What the reader of `pddl_tree` refuses.
ghost use Rattle.std.specs.Prelude.{◌≡◌, IfOk, map};
ghost use Rattle.faults.specs.declared.refused.Refused.TheVariants.{At};
ghost use Rattle.tokens.specs.Word.{word_of};
ghost use Rattle.model.specs.Trees.{domain_file, problem_file};
ghost use Rattle.pddl_tree.specs.Tree.{file_of};
ghost use Rattle.explain_words.specs.Verdict.{IsVerdict};

use faults::{Fault, NoMemory, Refused, TextRefusal};
use pddl_tree::{TaskFile, domain, problem};
use std::alloc::Global;
use tokens::Word;

/// What is refused in words as a file of this kind; `None` if they are a whole one.
///
/// # Errors
/// An allocation failed.
pub fn refused(
    alloc: Global,
    file: TaskFile,
    words: &[Word<'_>],
) -> Result<Option<TextRefusal>, NoMemory>
    ensures { IfOk result (IsVerdict (file_of file) (map word_of words.now)) }
{
    match file {
        TaskFile::Domain => refused_domain(alloc, words),
        TaskFile::Problem => refused_problem(alloc, words),
    }
}

/// What is refused in words as a domain.
fn refused_domain(alloc: Global, words: &[Word<'_>]) -> Result<Option<TextRefusal>, NoMemory>
    ensures { IfOk result (IsVerdict domain_file (map word_of words.now)) }
{
    let fault = match domain(alloc, words) {
        Ok(_tree) => return Ok(None),
        Err(fault) => fault,
    };
    Ok(Some(refusal_in(fault)?))
}

/// What is refused in words as a problem.
fn refused_problem(alloc: Global, words: &[Word<'_>]) -> Result<Option<TextRefusal>, NoMemory>
    ensures { IfOk result (IsVerdict problem_file (map word_of words.now)) }
{
    let fault = match problem(alloc, words) {
        Ok(_tree) => return Ok(None),
        Err(fault) => fault,
    };
    Ok(Some(refusal_in(fault)?))
}

/// The refusal that a fault is.
fn refusal_in(fault: Fault) -> Result<TextRefusal, NoMemory>
    ensures { IfOk result (λ refusal. fault ≡ At refusal) }
{
    match fault {
        Refused::At(refusal) => Ok(refusal),
        Refused::NoMemory => Err(NoMemory),
    }
}
