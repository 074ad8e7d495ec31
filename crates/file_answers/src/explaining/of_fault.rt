//! Explains a file that is refused.
ghost use Rattle.std.specs.Prelude.{IfOk};
ghost use Rattle.file_answers.specs.Explanations.{IsExplainedAlone, IsOfFault};

use crate::explaining::further::FurtherSearch;
use crate::explanation::{Explanation, Location, Subject};
use crate::files::FileFault;
use explain_faults::{FileRefusal, explain_fault};
use explain_hints::{CutTexts, NamedTexts};
use faults::{NoMemory, RefusalIn};
use std::alloc::Global;

/// Explains the fault of a file.
pub(super) fn explain_refused(
    alloc: Global,
    texts: &NamedTexts<'_>,
    fault: FileFault,
) -> Result<Explanation, NoMemory>
    ensures { IfOk result (IsOfFault texts.now fault) }
{
    match fault {
        FileFault::At { file, code, span } => {
            let first = RefusalIn { file, code, span };
            let pieces = CutTexts::of(alloc, texts, code)?;
            let alone = explain_at(alloc, texts, &pieces, first)?;
            let search = FurtherSearch {
                alloc,
                texts,
                pieces: &pieces,
                first,
            };
            search.with_further(alone)
        }
        FileFault::NoMemory => Err(NoMemory),
    }
}

/// The same, for the fault at this place alone.
fn explain_at(
    alloc: Global,
    texts: &NamedTexts<'_>,
    pieces: &CutTexts<'_>,
    fault: FileRefusal,
) -> Result<Explanation, NoMemory>
    ensures { IfOk result (IsExplainedAlone texts.now fault.file fault.code fault.span) }
{
    let RefusalIn { file, code, span } = fault;
    let explained = explain_fault(alloc, texts, pieces, fault)?;
    let text = explained.text(alloc, texts)?;
    let hints = explained.hints(alloc, texts)?;
    let location = Location::new(alloc, texts.name(file), explained.place, span)?;
    Ok(Explanation {
        subject: Subject::Fault { file, code, span },
        text,
        location: Some(location),
        hints,
        further: Vec::new(alloc),
        notes: Vec::new(alloc),
    })
}
