//! What is reported for an unexpected word: the table of refusals, by what the place requires.
ghost use Rattle.std.specs.Prelude.{◌≡◌, map};
ghost use Rattle.faults.specs.Fault.{number_of};
ghost use Rattle.pddl_tree.specs.Token.{from, first, seen, part_view, section_view};
ghost use Rattle.model.specs.Grammar as grammar;
ghost use Rattle.pddl_tree.specs.Reading.{number_seen};
ghost use Rattle.pddl_tree.specs.Tree.{file_of};
ghost use Rattle.pddl_tree.specs.Place.{expected};

use crate::token::{FreeName, Keyword, PartKeyword, ReservedName, SectionKeyword, Token, token_at};
use crate::tree::TaskFile;
use crate::word_fault::WordRefusal;
use faults::Code;
use tokens::Word;

/// The sections that may occur in a file.
pub fn allowed(file: TaskFile) -> &'static [SectionKeyword]
    ensures { map section_view result.now ≡ grammar.sections_of (file_of file) }
{
    match file {
        TaskFile::Domain => &[
            SectionKeyword::Requirements,
            SectionKeyword::Types,
            SectionKeyword::Constants,
            SectionKeyword::Predicates,
            SectionKeyword::Functions,
            SectionKeyword::Action,
        ],
        TaskFile::Problem => &[
            SectionKeyword::Domain,
            SectionKeyword::Requirements,
            SectionKeyword::Objects,
            SectionKeyword::Init,
            SectionKeyword::Goal,
            SectionKeyword::Metric,
        ],
    }
}

/// The sections that a file must have.
pub fn required(file: TaskFile) -> &'static [SectionKeyword]
    ensures { map section_view result.now ≡ grammar.required_of (file_of file) }
{
    match file {
        TaskFile::Domain => &[SectionKeyword::Predicates],
        TaskFile::Problem => &[
            SectionKeyword::Domain,
            SectionKeyword::Init,
            SectionKeyword::Goal,
        ],
    }
}

/// The elements of a typed list.
#[derive(Clone, Copy)]
pub enum ListElement {
    /// Names, each group of one type.
    Names,
    /// Variables, which may be of several types.
    Variables,
}

/// The context of an atom that stands as a literal.
#[derive(Clone, Copy)]
pub(crate) enum Literals {
    /// A plain effect.
    Plain,
    /// An effect under a `when`.
    UnderWhen,
}

/// A place in a file, as far as it determines the refusal of an unexpected word.
#[derive(Clone, Copy)]
pub enum Place<'s> {
    /// In a list that lacks a required part, where `)` can only close that list.
    Incomplete,
    /// Where the keyword of an action's part, or the action's `)`, may occur.
    Parts,
    /// Where the value of a part is required. The parts listed here have occurred.
    Value(&'s [PartKeyword]),
    /// After the `(` of a section.
    Section(TaskFile),
    /// In `:requirements`.
    Keys,
    /// After the `-` of a typed list.
    Type(ListElement),
    /// At the head of a list under a `when`.
    UnderWhen,
    /// Where only `total-cost` may occur.
    TotalCost,
    /// After `:metric`.
    Metric,
    /// Where a number may occur.
    Number,
    /// Anywhere else.
    Elsewhere,
}

/// Whether the part is among those already read.
pub fn has_part(seen: &[PartKeyword], part: PartKeyword) -> bool
    ensures { result ≡ grammar.has_part (map part_view seen.now) (part_view part) }
{
    seen.contains(&part)
}

/// Whether the section is among these.
pub fn has_section(sections: &[SectionKeyword], section: SectionKeyword) -> bool
    ensures { result ≡ grammar.has_section (map section_view sections.now) (section_view section) }
{
    sections.contains(&section)
}

/// The refusal of the word at an index.
pub fn refusal(words: &[Word], at: usize, place: Place) -> WordRefusal
    ensures number { number_of result.code ≡ number_seen (expected place.entry) (first (from words.now at)) }
    ensures at { result.at ≡ at }
{
    WordRefusal {
        code: code_of(token_at(words, at), place),
        at,
    }
}

/// The code for an unexpected word, or for the end of the words: the first matching arm. A keyword rejected here is repeated or
/// unknown. An `(either ..)` as the type of a name is left out of the language, as are other metrics, and other functions where
/// only `total-cost` may occur.
fn code_of(token: Token, place: Place) -> Code
    ensures { number_of result ≡ number_seen (expected place.entry) (seen token.entry) }
{
    match (token, place) {
        (Token::Reserved(ReservedName::LeftOut, _), _) => Code::LeftOut,
        (Token::Close, Place::Incomplete | Place::Parts) => Code::MissingSection,
        (Token::Close, Place::Value(seen)) if !has_part(seen, PartKeyword::Parameters) => {
            Code::MissingSection
        }
        (Token::Keyword(Keyword::Part(_)), Place::Parts) => Code::RepeatedSection,
        (Token::Keyword(Keyword::Part(part)), Place::Value(seen)) if has_part(seen, part) => {
            Code::RepeatedSection
        }
        (Token::Keyword(Keyword::Section(section)), Place::Section(file))
            if has_section(allowed(file), section) => { Code::RepeatedSection }
        (Token::Keyword(Keyword::LeftOut), Place::Parts | Place::Section(_)) => Code::LeftOut,
        (Token::Keyword(_), Place::Parts | Place::Section(_)) => Code::UnknownSection,
        (Token::Keyword(_), Place::Keys) => Code::UnknownRequirement,
        (Token::Open, Place::Type(ListElement::Names)) => Code::LeftOut,
        (Token::Reserved(ReservedName::When | ReservedName::Forall, _), Place::UnderWhen) => {
            Code::LeftOut
        }
        (Token::Reserved(_, _) | Token::Free(_, _), Place::TotalCost) => Code::LeftOut,
        (Token::Free(FreeName::Maximize, _), Place::Metric) => Code::LeftOut,
        (Token::LargeNumber, Place::Number) => Code::NumberTooLarge,
        _ => Code::BadForm,
    }
}
