//! Formulas, each from the word after its `(`.
ghost use Rattle.std.specs.Prelude.{◌≡◌, [], map};
ghost use Rattle.model.specs.Trees as tree;
ghost use Rattle.model.specs.Grammar.{many, listed, formula as requires_formula};
ghost use Rattle.pddl_tree.specs.Phrases.{the_equality, the_last, the_implication};
ghost use Rattle.pddl_tree.specs.Reading.{part, phrase, Reads};
ghost use Rattle.pddl_tree.specs.Tree.{formula_of};

use crate::lists::list;
use crate::look::{Parsed, close, is_close, open, term};
use crate::refusals::{Place, refusal};
use crate::token::{ReservedName, Token, token_at};
use crate::tree::{Atom, Formula};
use crate::typed_lists::variables;
use faults::Refused;
use std::alloc::Global;
use tokens::Word;

/// `(and)`, which always holds.
pub fn no_condition<'a>(alloc: Global) -> Formula<'a>
    ensures { formula_of result ≡ tree.and (tree.formulas []) }
{
    Formula::And(Vec::new(alloc))
}

/// Parses a formula after its `(`: the formula, and the index after its `)`.
#[cycle(formula)]
#[tactic(auto, using(crate::proofs::Read::part_here))]
pub fn formula<'a>(alloc: Global, words: &[Word<'a>], at: usize) -> Parsed<Formula<'a>>
    ensures { Reads (part requires_formula) words.now at formula_of result }
{
    match token_at(words, at) {
        Token::Free(_, predicate) => {
            let (terms, next) = list(alloc, words, at + 1)?;
            Ok((Formula::Atom(Atom { predicate, terms }), next))
        }
        Token::Equals(_) => equality(words, at + 1),
        Token::Reserved(ReservedName::And, _) => {
            let (parts, next) = formulas(alloc, words, at + 1)?;
            Ok((Formula::And(parts), next))
        }
        Token::Reserved(ReservedName::Or, _) => {
            let (parts, next) = formulas(alloc, words, at + 1)?;
            Ok((Formula::Or(parts), next))
        }
        Token::Reserved(ReservedName::Not, _) => {
            let (part, next) = last(alloc, words, at + 1)?;
            Ok((Formula::Not(part), next))
        }
        Token::Reserved(ReservedName::Imply, _) => implication(alloc, words, at + 1),
        Token::Reserved(ReservedName::Exists, _) => {
            let (variables, next) = variables(alloc, words, at + 1)?;
            let (part, next) = last(alloc, words, next)?;
            Ok((Formula::Exists(variables, part), next))
        }
        Token::Reserved(ReservedName::Forall, _) => {
            let (variables, next) = variables(alloc, words, at + 1)?;
            let (part, next) = last(alloc, words, next)?;
            Ok((Formula::Forall(variables, part), next))
        }
        _ => Err(Refused::At(refusal(words, at, Place::Elsewhere))),
    }
}

/// Parses two terms and `)`: their equality, and the index after the parenthesis.
fn equality<'a>(words: &[Word<'a>], at: usize) -> Parsed<Formula<'a>>
    ensures { Reads (phrase the_equality) words.now at formula_of result }
{
    let (first, next) = term(words, at)?;
    let (second, next) = term(words, next)?;
    let next = close(words, next)?;
    Ok((Formula::Equal(first, second), next))
}

/// Parses two formulas and `)`: the implication, and the index after the parenthesis.
#[cycle(formula)]
fn implication<'a>(alloc: Global, words: &[Word<'a>], at: usize) -> Parsed<Formula<'a>>
    ensures { Reads (phrase the_implication) words.now at formula_of result }
{
    let (premise, next) = part(alloc, words, at)?;
    let (conclusion, next) = last(alloc, words, next)?;
    Ok((Formula::Imply(premise, conclusion), next))
}

/// Parses a formula in parentheses and `)`: the formula, and the index after the last parenthesis.
#[cycle(formula)]
pub fn last<'a>(alloc: Global, words: &[Word<'a>], at: usize) -> Parsed<Box<Formula<'a>>>
    ensures { Reads (phrase the_last) words.now at (λ f. formula_of f.value) result }
{
    let (part, next) = part(alloc, words, at)?;
    let next = close(words, next)?;
    Ok((part, next))
}

/// Parses a formula in parentheses: the formula, and the index after them.
#[cycle(formula)]
#[tactic(auto, using(crate::proofs::Looks::of_lists_inside))]
pub(crate) fn part<'a>(alloc: Global, words: &[Word<'a>], at: usize) -> Parsed<Box<Formula<'a>>>
    ensures { Reads (part (listed requires_formula)) words.now at (λ f. formula_of f.value) result }
{
    let inside = open(words, at, Place::Elsewhere)?;
    let (part, next) = formula(alloc, words, inside)?;
    let part = Box::new(alloc, part)?;
    Ok((part, next))
}

/// Parses formulas up to `)`: the formulas, and the index after the parenthesis.
#[cycle(formula)]
#[tactic(auto, using(crate::proofs::Looks::of_lists))]
fn formulas<'a>(alloc: Global, words: &[Word<'a>], at: usize) -> Parsed<Vec<Formula<'a>>>
    ensures { Reads (part (many (listed requires_formula))) words.now at (λ parts. map formula_of parts.items) result }
{
    let mut parts = Vec::new(alloc);
    let mut next = at;
    'parts: while !is_close(words, next) {
        let inside = open(words, next, Place::Elsewhere)?;
        let (part, after) = formula(alloc, words, inside)?;
        parts.push(part)?;
        next = after;
    }
    Ok((parts, next + 1))
}
