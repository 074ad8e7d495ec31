//! Single words: each function reads or tests the word at an index.
ghost use Rattle.std.specs.Prelude.{◌≡◌, ◌<◌, IfSome, IsTrue, length};
ghost use Rattle.std.specs.Option.{option_map, option_and_then};
ghost use Rattle.model.specs.Grammar.{a_name, action_name as requires_action_name, term as requires_term, close as requires_close, either_word as requires_either, define_word, kind_word, total_cost as requires_total_cost, amount as requires_amount, number_type, minimize_word};
ghost use Rattle.pddl_tree.specs.Terms.{name_of, term_of};
ghost use Rattle.pddl_tree.specs.Token.{from, first};
ghost use Rattle.pddl_tree.specs.Tree.{file_of};
ghost use Rattle.pddl_tree.specs.Place.{listed_view};
ghost use Rattle.pddl_tree.specs.Reading.{part, Passes, ReadsWords, Opens, closes_first, and_first};
ghost use Rattle.pddl_tree.specs.Costs.{dash_first, increase_in};
ghost use Rattle.pddl_tree.specs.Typed.{NamesOne, ends_group_first};

use crate::refusals::{ListElement, Place, refusal};
use crate::terms::{Name, Term};
use crate::token::{FreeName, ReservedName, Token, token_at};
use crate::tree::TaskFile;
use crate::word_fault::{WordFault, WordRefusal};
use tokens::Word;

/// What was read, with the index of the next word; or the first unexpected word, by code and index; or running out of memory,
/// which says nothing about the words.
pub type Parsed<T> = Result<(T, usize), WordFault>;

/// Whether the word at an index is `)`.
pub fn is_close(words: &[Word], at: usize) -> bool
    ensures within { IsTrue result → at < length words.now }
    ensures first { result ≡ closes_first (first (from words.now at)) }
{
    matches!(token_at(words, at), Token::Close)
}

/// Whether the word at an index is `and`.
pub(crate) fn is_and(words: &[Word], at: usize) -> bool
    ensures within { IsTrue result → at < length words.now }
    ensures first { result ≡ and_first (first (from words.now at)) }
{
    matches!(token_at(words, at), Token::Reserved(ReservedName::And, _))
}

/// Whether the word at an index is `-`.
pub(crate) fn is_dash(words: &[Word], at: usize) -> bool
    ensures within { IsTrue result → at < length words.now }
    ensures first { result ≡ dash_first (first (from words.now at)) }
{
    matches!(token_at(words, at), Token::Dash)
}

/// Whether the word at an index is `-` or `)`, either of which ends a group of a typed list.
pub(crate) fn ends_group(words: &[Word], at: usize) -> bool
    ensures within { IsTrue result → at < length words.now }
    ensures first { result ≡ ends_group_first (first (from words.now at)) }
{
    matches!(token_at(words, at), Token::Dash | Token::Close)
}

/// The word `increase`, if it is at the index.
pub(crate) fn increase_word<'a>(words: &[Word<'a>], at: usize) -> Option<Name<'a>>
    ensures within { IfSome result (λ _. at < length words.now) }
    ensures word { option_map name_of result ≡ option_and_then increase_in (first (from words.now at)) }
{
    match token_at(words, at) {
        Token::Reserved(ReservedName::Increase, word) => Some(word),
        _ => None,
    }
}

/// Reads `(`: the index after it.
pub fn open(words: &[Word], at: usize, place: Place) -> Result<usize, WordRefusal>
    ensures { Opens words.now at place.entry result }
{
    match token_at(words, at) {
        Token::Open => Ok(at + 1),
        _ => Err(refusal(words, at, place)),
    }
}

/// Reads `)`: the index after it.
#[tactic(auto, using(crate::proofs::Read::part_here))]
pub fn close(words: &[Word], at: usize) -> Result<usize, WordRefusal>
    ensures { Passes (part requires_close) words.now at tt result }
{
    match token_at(words, at) {
        Token::Close => Ok(at + 1),
        _ => Err(refusal(words, at, Place::Elsewhere)),
    }
}

/// Reads any name: the name, and the index after it.
#[tactic(auto, using(crate::proofs::Read::part_here))]
pub fn name<'a>(words: &[Word<'a>], at: usize) -> Result<(Name<'a>, usize), WordRefusal>
    ensures { ReadsWords (part a_name) words.now at name_of result }
{
    match token_at(words, at) {
        Token::Free(_, name) => Ok((name, at + 1)),
        Token::Reserved(_, name) => Ok((name, at + 1)),
        _ => Err(refusal(words, at, Place::Elsewhere)),
    }
}

/// Reads the name of an action: the name, and the index after it.
#[tactic(auto, using(crate::proofs::Read::part_here))]
pub fn action_name<'a>(words: &[Word<'a>], at: usize) -> Result<(Name<'a>, usize), WordRefusal>
    ensures { ReadsWords (part requires_action_name) words.now at name_of result }
{
    let place = Place::Incomplete;
    match token_at(words, at) {
        Token::Free(_, name) => Ok((name, at + 1)),
        Token::Reserved(_, name) => Ok((name, at + 1)),
        _ => Err(refusal(words, at, place)),
    }
}

/// Reads a name or a variable of a typed list: the word, and the index after it.
pub(crate) fn listed_name<'a>(
    words: &[Word<'a>],
    at: usize,
    listed: ListElement,
) -> Result<(Name<'a>, usize), WordRefusal>
    ensures { NamesOne (listed_view listed) words.now at result }
{
    let token = token_at(words, at);
    let name = match listed {
        ListElement::Names => token.name(),
        ListElement::Variables => token.variable(),
    };
    match name {
        Some(name) => Ok((name, at + 1)),
        None => Err(refusal(words, at, Place::Elsewhere)),
    }
}

/// Reads a term: the term, and the index after it.
#[tactic(auto, using(crate::proofs::Read::part_here))]
pub(crate) fn term<'a>(words: &[Word<'a>], at: usize) -> Result<(Term<'a>, usize), WordRefusal>
    ensures { ReadsWords (part requires_term) words.now at term_of result }
{
    match token_at(words, at) {
        Token::Variable(variable) => Ok((Term::Variable(variable), at + 1)),
        Token::Free(_, object) => Ok((Term::Object(object), at + 1)),
        Token::Reserved(_, object) => Ok((Term::Object(object), at + 1)),
        _ => Err(refusal(words, at, Place::Elsewhere)),
    }
}

/// Reads `define`: the index after it.
#[tactic(auto, using(crate::proofs::Read::part_here))]
pub fn define(words: &[Word], at: usize) -> Result<usize, WordRefusal>
    ensures { Passes (part define_word) words.now at tt result }
{
    match token_at(words, at) {
        Token::Free(FreeName::Define, _) => Ok(at + 1),
        _ => Err(refusal(words, at, Place::Incomplete)),
    }
}

/// Reads `domain` or `problem`, whichever fits the file: the index after it.
#[tactic(auto, using(crate::proofs::Read::part_here))]
pub fn kind(words: &[Word], at: usize, file: TaskFile) -> Result<usize, WordRefusal>
    ensures { Passes (part (kind_word (file_of file))) words.now at tt result }
{
    match file {
        TaskFile::Domain => match token_at(words, at) {
            Token::Free(FreeName::Domain, _) => Ok(at + 1),
            _ => Err(refusal(words, at, Place::Elsewhere)),
        },
        TaskFile::Problem => match token_at(words, at) {
            Token::Free(FreeName::Problem, _) => Ok(at + 1),
            _ => Err(refusal(words, at, Place::Elsewhere)),
        },
    }
}

/// Reads `either`: the index after it.
#[tactic(auto, using(crate::proofs::Read::part_here))]
pub(crate) fn either_word(words: &[Word], at: usize) -> Result<usize, WordRefusal>
    ensures { Passes (part requires_either) words.now at tt result }
{
    match token_at(words, at) {
        Token::Reserved(ReservedName::Either, _) => Ok(at + 1),
        _ => Err(refusal(words, at, Place::Elsewhere)),
    }
}

/// Reads `total-cost` and `)`: the name, and the index after the parenthesis.
#[tactic(auto, using(crate::proofs::Read::part_here))]
pub(crate) fn total_cost<'a>(
    words: &[Word<'a>],
    at: usize,
) -> Result<(Name<'a>, usize), WordRefusal>
    ensures { ReadsWords (part requires_total_cost) words.now at name_of result }
{
    match token_at(words, at) {
        Token::Reserved(ReservedName::TotalCost, name) => {
            let next = close(words, at + 1)?;
            Ok((name, next))
        }
        _ => Err(refusal(words, at, Place::TotalCost)),
    }
}

/// Reads a number: the number with its word, and the index after it.
#[tactic(auto, using(crate::proofs::Read::part_here))]
pub(crate) fn number<'a>(
    words: &[Word<'a>],
    at: usize,
) -> Result<((u32, Name<'a>), usize), WordRefusal>
    ensures { ReadsWords (part requires_amount) words.now at (λ v. (v.0, name_of v.1)) result }
{
    match token_at(words, at) {
        Token::Number(number, name) => Ok(((number, name), at + 1)),
        _ => Err(refusal(words, at, Place::Number)),
    }
}

/// Reads `number`, the type of a function: the index after it.
#[tactic(auto, using(crate::proofs::Read::part_here))]
pub(crate) fn number_word(words: &[Word], at: usize) -> Result<usize, WordRefusal>
    ensures { Passes (part number_type) words.now at tt result }
{
    match token_at(words, at) {
        Token::Free(FreeName::NumberWord, _) => Ok(at + 1),
        _ => Err(refusal(words, at, Place::Elsewhere)),
    }
}

/// Reads `minimize`: the index after it.
#[tactic(auto, using(crate::proofs::Read::part_here))]
pub(crate) fn minimize(words: &[Word], at: usize) -> Result<usize, WordRefusal>
    ensures { Passes (part minimize_word) words.now at tt result }
{
    match token_at(words, at) {
        Token::Free(FreeName::Minimize, _) => Ok(at + 1),
        _ => Err(refusal(words, at, Place::Metric)),
    }
}
