//! When one of two faults is enough to report, since both seem to come from one mistake.
ghost use Rattle.std.specs.Prelude.{◌≡◌, false, codes, nat_eq, IsTrue};
ghost use Rattle.std.specs.List.{starts_with};
ghost use Rattle.explain_hints.specs.Files.{text_in};
ghost use Rattle.explain_faults.specs.SameMistake.{between, word_of, AreInOneList, AreInOneScope, AreOfOneMistake, IsNowhere, IsOfDeclaration, IsVariable};

use explain_hints::{File, FileRefusal, NamedTexts, reported_bytes};
use faults::{Code, RefusalIn, Span};

/// Whether a fault seems to come from the same mistake as another: the same word is refused for the same reason, or it follows from
/// the other.
pub fn are_of_one_mistake(texts: &NamedTexts<'_>, fault: FileRefusal, other: FileRefusal) -> bool
    ensures { IsTrue result → AreOfOneMistake (text_in texts.now) fault other }
{
    is_refused_again(texts, fault, other) || follows(texts, fault, other)
}

/// Whether the same word is refused for the same reason; a variable in the same action, or in the problem.
fn is_refused_again(texts: &NamedTexts<'_>, fault: FileRefusal, other: FileRefusal) -> bool
    ensures { IsTrue result → AreOfOneMistake (text_in texts.now) fault other }
{
    if fault.code.number() != other.code.number() {
        return false;
    }
    if !reported_bytes(texts, fault).eq_ignore_ascii_case(reported_bytes(texts, other)) {
        return false;
    }
    !is_variable(texts, fault) || are_in_one_scope(texts, fault, other)
}

/// Whether a fault seems to follow from another. Each type of a cycle is refused. A term is of a wrong type if the terms of its list are
/// in the wrong order, or if it is a variable in the scope of a declaration that is refused. An unknown variable may be the one that a
/// variable declared twice was meant to be.
fn follows(texts: &NamedTexts<'_>, fault: FileRefusal, other: FileRefusal) -> bool
    ensures { IsTrue result → AreOfOneMistake (text_in texts.now) fault other }
{
    match (fault.code, other.code) {
        (Code::TypeCycle, Code::TypeCycle) => true,
        (Code::WrongType, Code::WrongType) => are_in_one_list(texts, fault, other),
        _ => {
            is_of_declaration(fault.code, other.code)
                && is_variable(texts, fault)
                && are_in_one_scope(texts, fault, other)
        }
    }
}

/// Whether a variable that is refused with the first code may be that of a declaration that is refused with the second.
fn is_of_declaration(code: Code, other: Code) -> bool
    ensures { IsTrue result → IsOfDeclaration code other }
{
    match (code, other) {
        (Code::WrongType, Code::UnknownType) => true,
        (Code::WrongType, Code::Duplicate) => true,
        (Code::WrongType, Code::Shadowed) => true,
        (Code::UnknownName, Code::Duplicate) => true,
        _ => false,
    }
}

/// Whether a variable is refused.
fn is_variable(texts: &NamedTexts<'_>, fault: FileRefusal) -> bool
    ensures { result ≡ starts_with nat_eq (word_of (text_in texts.now) fault) (codes "?") }
{
    reported_bytes(texts, fault).starts_with(b"?")
}

/// Whether no parenthesis stands between two faults of a file.
fn are_in_one_list(texts: &NamedTexts<'_>, fault: FileRefusal, other: FileRefusal) -> bool
    ensures { IsTrue result → AreInOneList (text_in texts.now) fault other }
{
    let bytes = between(texts, fault, other);
    fault.file == other.file && !bytes.contains(&b'(') && !bytes.contains(&b')')
}

/// Whether two faults are in the problem, or in the domain without a beginning of an action between them.
fn are_in_one_scope(texts: &NamedTexts<'_>, fault: FileRefusal, other: FileRefusal) -> bool
    ensures { IsTrue result → AreInOneScope (text_in texts.now) fault other }
{
    fault.file == other.file
        && (fault.file == File::Problem || !has_action(between(texts, fault, other)))
}

/// The bytes of the first fault's file from the start of the one fault to that of the other.
fn between<'a>(texts: &NamedTexts<'a>, fault: FileRefusal, other: FileRefusal) -> &'a [u8]
    ensures { result.now ≡ between (text_in texts.now) fault other }
{
    let span = Span {
        start: fault.span.start.min(other.span.start),
        end: fault.span.start.max(other.span.start),
    };
    reported_bytes(
        texts,
        RefusalIn {
            file: fault.file,
            code: fault.code,
            span,
        },
    )
}

/// Whether an action begins in this piece of a domain.
fn has_action(piece: &[u8]) -> bool
    ensures { result ≡ false → IsNowhere (codes ":action") piece.now }
{
    for start in 0..piece.len().saturating_sub(6) {
        if piece[start..start + 7].eq_ignore_ascii_case(b":action") {
            return true;
        }
    }
    false
}
