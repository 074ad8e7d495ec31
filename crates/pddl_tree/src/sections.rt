//! The sections of a file: one loop for both kinds of file.
ghost use Rattle.std.specs.Prelude.{◌≡◌, ◌+◌, [], IfOk, IfErr, map, Some, true, false};
ghost use Rattle.std.specs.List.{list_all};
ghost use Rattle.model.specs.GrammarWords.{opens, keyword, of_section};
ghost use Rattle.model.specs.Grammar as grammar;
ghost use Rattle.pddl_tree.specs.Terms.{name_of};
ghost use Rattle.pddl_tree.specs.Token.{from, first, section_view};
ghost use Rattle.pddl_tree.specs.Reading.{part, phrase, Reads, ReadsInto, MayContinue, Stops, closes_first};
ghost use Rattle.pddl_tree.specs.Tree.{file_of};
ghost use Rattle.pddl_tree.specs.Sections.{contents_of, sections_on, section_into, the_domain, IsNotNew};

use crate::action::action;
use crate::costs::metric;
use crate::declared::functions;
use crate::formulas::{last, no_condition};
use crate::lists::{Key, list};
use crate::look::{Parsed, close, is_close, name, open};
use crate::placing::{put, replace};
use crate::refusals::{ListElement, Place, allowed, has_section, refusal, required};
use crate::terms::Name;
use crate::token::{Keyword, SectionKeyword, Token, token_at};
use crate::tree::{Action, Fact, Formula, Group, Predicate, TaskFile};
use crate::typed_lists::typed;
use crate::word_fault::{WordFault, WordRefusal};
use faults::{NoMemory, Refused, Span};
use std::alloc::Global;
use tokens::Word;

/// The contents of a file's sections. A section that the file does not have is empty.
#[derive(Drop)]
pub(crate) struct Contents<'a> {
    pub(crate) types: Vec<Group<'a>>,
    pub(crate) constants: Vec<Group<'a>>,
    pub(crate) predicates: Vec<Predicate<'a>>,
    pub(crate) functions: Vec<Predicate<'a>>,
    pub(crate) actions: Vec<Action<'a>>,
    pub(crate) domain: Name<'a>,
    pub(crate) objects: Vec<Group<'a>>,
    pub(crate) init: Vec<Fact<'a>>,
    pub(crate) goal: Formula<'a>,
    pub(crate) metric: Option<Name<'a>>,
}

impl<'a> Contents<'a> {
    /// The contents of a file without sections.
    pub(crate) fn new(alloc: Global) -> Contents<'a>
        ensures { contents_of result ≡ grammar.no_contents }
    {
        Contents {
            types: Vec::new(alloc),
            constants: Vec::new(alloc),
            predicates: Vec::new(alloc),
            functions: Vec::new(alloc),
            actions: Vec::new(alloc),
            domain: Name {
                text: b"",
                span: Span { start: 0, end: 0 },
            },
            objects: Vec::new(alloc),
            init: Vec::new(alloc),
            goal: no_condition(alloc),
            metric: None,
        }
    }
}

/// Parses the sections of a file, each but `:action` at most once, and `)` into the contents: the index after the parenthesis.
pub(crate) fn sections<'a>(
    alloc: Global,
    words: &[Word<'a>],
    at: usize,
    file: TaskFile,
    contents: &mut Contents<'a>,
) -> Result<usize, WordFault>
    ensures { ReadsInto (phrase (sections_on (file_of file) [] (contents_of contents.old))) words.now at (contents_of contents.new) result }
{
    let mut seen = Vec::new(alloc);
    let mut next = at;
    'sections: while !is_close(words, next) {
        next = section(alloc, words, next, file, contents, &mut seen)?;
    }
    if has_all(&seen, required(file)) {
        Ok(next + 1)
    } else {
        Err(Refused::At(refusal(words, next, Place::Incomplete)))
    }
}

/// Parses a section that may occur here into the contents and records it: the index after it.
fn section<'a>(
    alloc: Global,
    words: &[Word<'a>],
    at: usize,
    file: TaskFile,
    contents: &mut Contents<'a>,
    seen: &mut Vec<SectionKeyword>,
) -> Result<usize, WordFault>
    requires { closes_first (first (from words.now at)) ≡ false }
    ensures { MayContinue (phrase (sections_on (file_of file) (map section_view seen.old.items) (contents_of contents.old))) (phrase (sections_on (file_of file) (map section_view seen.new.items) (contents_of contents.new))) words.now at result }
{
    let keyword = section_head(words, at, file, seen)?;
    see(seen, keyword)?;
    section_rest(alloc, words, at + 2, keyword, contents)
}

/// Whether all of these sections have occurred.
fn has_all(seen: &[SectionKeyword], sections: &[SectionKeyword]) -> bool
    ensures { result ≡ list_all (λ section. grammar.has_section (map section_view seen.now) (section_view section)) sections.now }
{
    sections.iter().all(|section| has_section(seen, *section))
}

/// Records a section that was read, except for an action, of which there may be several.
fn see(seen: &mut Vec<SectionKeyword>, section: SectionKeyword) -> Result<(), NoMemory>
    ensures { IfOk result (λ _. map section_view seen.new.items ≡ grammar.seen_with (map section_view seen.old.items) (section_view section)) }
{
    if section != SectionKeyword::Action {
        seen.push(section)?;
    }
    Ok(())
}

/// Reads the `(` and the keyword of a section that may occur here.
fn section_head(
    words: &[Word],
    at: usize,
    file: TaskFile,
    seen: &[SectionKeyword],
) -> Result<SectionKeyword, WordRefusal>
    ensures opens { IfOk result (λ _. first (from words.now at) ≡ Some opens) }
    ensures word { IfOk result (λ section. first (from words.now (at + 1)) ≡ Some (keyword (of_section (section_view section)))) }
    ensures new { IfOk result (λ section. (grammar.has_section (grammar.sections_of (file_of file)) (section_view section) ≡ true) × (grammar.has_section (map section_view seen.now) (section_view section) ≡ false)) }
    ensures reported { IfErr result (λ refusal. closes_first (first (from words.now at)) ≡ false → Stops words.now (part (grammar.sections (file_of file) (map section_view seen.now)) (from words.now at)) refusal) }
{
    if has_all(seen, allowed(file)) {
        return Err(refusal(words, at, Place::Incomplete));
    }
    let inside = open(words, at, Place::Incomplete)?;
    section_keyword(words, inside, file, seen)
}

/// Reads the keyword of a section that may occur here.
fn section_keyword(
    words: &[Word],
    at: usize,
    file: TaskFile,
    seen: &[SectionKeyword],
) -> Result<SectionKeyword, WordRefusal>
    ensures word { IfOk result (λ section. first (from words.now at) ≡ Some (keyword (of_section (section_view section)))) }
    ensures new { IfOk result (λ section. (grammar.has_section (grammar.sections_of (file_of file)) (section_view section) ≡ true) × (grammar.has_section (map section_view seen.now) (section_view section) ≡ false)) }
    ensures reported { IfErr result (λ refusal. IsNotNew words.now at (file_of file) (map section_view seen.now) refusal) }
{
    match token_at(words, at) {
        Token::Keyword(Keyword::Section(section)) => {
            if has_section(allowed(file), section) && !has_section(seen, section) {
                Ok(section)
            } else {
                Err(refusal(words, at, Place::Section(file)))
            }
        }
        _ => Err(refusal(words, at, Place::Section(file))),
    }
}

/// Parses a section, whose keyword was read, into the contents: the index after it.
#[tactic(auto, using(crate::proofs::Looks::put_in))]
fn section_rest<'a>(
    alloc: Global,
    words: &[Word<'a>],
    at: usize,
    keyword: SectionKeyword,
    contents: &mut Contents<'a>,
) -> Result<usize, WordFault>
    ensures { ReadsInto (phrase (section_into (section_view keyword) (contents_of contents.old))) words.now at (contents_of contents.new) result }
{
    match keyword {
        SectionKeyword::Requirements => {
            let (_, next) = list::<Key>(alloc, words, at)?;
            Ok(next)
        }
        SectionKeyword::Types => put(
            &mut contents.types,
            typed(alloc, words, at, ListElement::Names),
        ),
        SectionKeyword::Constants => {
            put(
                &mut contents.constants,
                typed(alloc, words, at, ListElement::Names),
            )
        }
        SectionKeyword::Predicates => put(&mut contents.predicates, list(alloc, words, at)),
        SectionKeyword::Functions => put(&mut contents.functions, functions(alloc, words, at)),
        SectionKeyword::Action => {
            let (action, next) = action(alloc, words, at)?;
            contents.actions.push(action)?;
            Ok(next)
        }
        SectionKeyword::Domain => put(&mut contents.domain, domain_name(words, at)),
        SectionKeyword::Objects => {
            put(
                &mut contents.objects,
                typed(alloc, words, at, ListElement::Names),
            )
        }
        SectionKeyword::Init => put(&mut contents.init, list(alloc, words, at)),
        SectionKeyword::Goal => {
            let (goal, next) = last(alloc, words, at)?;
            replace(&mut contents.goal, Box::into_inner(goal));
            Ok(next)
        }
        SectionKeyword::Metric => {
            let (metric, next) = metric(words, at)?;
            contents.metric = Some(metric);
            Ok(next)
        }
    }
}

/// Reads a name and `)`: the name, and the index after the parenthesis.
fn domain_name<'a>(words: &[Word<'a>], at: usize) -> Parsed<Name<'a>>
    ensures { Reads (phrase the_domain) words.now at name_of result }
{
    let (name, next) = name(words, at)?;
    let next = close(words, next)?;
    Ok((name, next))
}
