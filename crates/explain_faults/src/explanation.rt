//! A fault with its explanation.
ghost use Rattle.std.specs.Prelude.{IfOk, IsTrue};
ghost use Rattle.explain_faults.specs.Explained.{AreExpected, AreWhole, IsExplained, IsOfWords};

use crate::allowed::{RefusedBytes, words_at};
use crate::sentences::{Remarks, remarks_on};
use crate::wrong::{WrongPlace, wrong_place};
use explain_hints::{
    Context, CutTexts, File, FileRefusal, LineColumn, NamedTexts, place_of, reported_bytes,
};
use faults::{Code, NoMemory};
use pddl_tree::TaskFile;
use std::alloc::Global;
use tokens::Word;

/// A fault, its place, and what helps.
#[derive(Drop)]
pub struct FaultExplanation<'a> {
    /// The fault, as given.
    pub fault: FileRefusal,
    /// Where its span begins, as an editor shows it.
    pub place: LineColumn,
    /// The words that may occur in place of a refused one, one for each kind: one name stands for all names, one variable for all
    /// variables, one number for all numbers. For a keyword, only the similar ones if there are any.
    pub allowed: Vec<Word<'a>>,
    /// What is wrong, and what to do.
    pub(crate) remarks: Remarks,
    /// Where the text goes wrong before the fault, if its parentheses are unbalanced.
    pub wrong: Option<WrongPlace>,
}

/// Explains a fault of these texts, given their pieces. The caller is responsible for it being the first fault; for a fault that
/// these texts do not have, the help is whatever the words around its span allow.
///
/// # Errors
/// An allocation failed.
pub fn explain_fault<'a>(
    alloc: Global,
    texts: &NamedTexts<'a>,
    pieces: &CutTexts<'a>,
    fault: FileRefusal,
) -> Result<FaultExplanation<'a>, NoMemory>
    ensures { IfOk result (IsExplained texts.now fault) }
{
    let place = place_of(texts.text(fault.file), fault.span.start);
    let allowed = expected_words(alloc, texts, fault)?;
    let wrong = wrong_place(alloc, texts, pieces, fault)?;
    let remarks = remarks_on(alloc, Context::of(alloc, texts, pieces, fault), &allowed)?;
    Ok(FaultExplanation {
        fault,
        place,
        allowed,
        remarks,
        wrong,
    })
}

/// The words that may occur in place of a refused one; none if other help is reported.
fn expected_words<'a>(
    alloc: Global,
    texts: &NamedTexts<'a>,
    fault: FileRefusal,
) -> Result<Vec<Word<'a>>, NoMemory>
    ensures allowed { IfOk result (λ allowed. AreExpected texts.now fault allowed.items) }
    ensures whole { IsOfWords fault.code → IfOk result (λ allowed. AreWhole texts.now fault allowed.items) }
{
    if !is_of_words(fault.code) {
        return Ok(Vec::new(alloc));
    }
    let (domain, problem) = (texts.domain.text, texts.problem.text);
    let refused = RefusedBytes {
        offset: fault.span.start,
        bytes: reported_bytes(texts, fault),
    };
    match fault.file {
        File::Domain => words_at(alloc, TaskFile::Domain, domain, refused),
        File::Problem => words_at(alloc, TaskFile::Problem, problem, refused),
        File::Plan => Ok(Vec::new(alloc)),
    }
}

/// Whether this code means that a word was unexpected.
fn is_of_words(code: Code) -> bool
    ensures { IsOfWords code → IsTrue result }
{
    match code {
        Code::BadForm | Code::UnknownSection | Code::UnknownRequirement => true,
        _ => false,
    }
}
